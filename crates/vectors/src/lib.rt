// Tests alone: the calls, asked what others have answered, and each refusal once.
#![tactic(auto)]

#[cfg(test)]
mod calls;
#[cfg(test)]
mod entries;
#[cfg(test)]
mod numbers;
#[cfg(test)]
mod worked;
