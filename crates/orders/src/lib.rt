// All orders of a list of numbers, in dictionary order, and what the first that passes a test is.
#![tactic(auto)]

ghost use Rattle.orders.specs.Least.{FirstIsLeast, NoneIsNone, AmongIs};
ghost use Rattle.orders.specs.Least.{OrdersAreByIndex, OneComesBefore};

// That the first order that passes is the least in dictionary order of all that pass, and that
// there is a first exactly where one passes. That the numbers that are put in order are those from
// 1 to 64 that pass a test, listed in rising order. And what these words mean by the indices of
// lists, and that of two different orders of the same numbers one comes before the other.
pub fn least_stands()
    ensures first { FirstIsLeast }
    ensures none { NoneIsNone }
    ensures among { AmongIs }
    ensures index { OrdersAreByIndex }
    ensures before { OneComesBefore }
{}
