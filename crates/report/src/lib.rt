// The report of a sheet of axes, as bytes for the console.
#![tactic(auto)]

ghost use Rattle.std.specs.Prelude.{◌≡◌, ◌+◌, ◌≤◌, ◌<◌, ◌↔◌, ◌++◌, length, IsErr, IfOk, OnErr, IsOkUnless};
ghost use Rattle.recovery.specs.Classes.{class_of};
ghost use Rattle.book.specs.Entering.{accepted};
ghost use Rattle.report.specs.Report.{OrderWritten, AnswersWritten, Told, Written};
ghost use Rattle.report.specs.Text.{class_line, views_text};
ghost use Rattle.report.specs.Laws.{LinesAreRead, OrderLineShows, ViewsLineShows, SheetReportShows};
ghost use Rattle.report.specs.Laws.{ClassLineShows, FaultLineShows, ReportShows};

mod pages;

use book::Book;
use graphs::Found;
use history::Entry;
use items::{Axis, Item};
pub use pages::LONGEST;
use pages::Page;
use refusals::Refusal;

// How many entries the book holds.
const PLACES: usize = 2048;

impl Page {
    // Writes the line of the class.
    fn class<K: Item>(&mut self, book: &Book<'_, K>)
        requires { length self.old + 16 ≤ 388 }
        ensures { self.new ≡ self.old ++ class_line (class_of K.Item.alike (accepted book.now)) }
    {
        let class = book.class();
        self.line(b"class", &[class.number(), class.place() as u32]);
    }

    // Writes the line of the order, or of a cycle.
    fn order<K: Item>(&mut self, book: &Book<'_, K>)
        requires { length self.old + 326 ≤ 388 }
        ensures { OrderWritten K.Item.alike (accepted book.now) self.old self.new }
    {
        let mut cues = [0u32; 64];
        let mut strip = [0u8; 64];
        match book.order(&mut cues, &mut strip) {
            Ok(Found::Order(count)) => self.line(b"order", &cues[..count]),
            Ok(Found::Cycle(count)) => self.line(b"cycle", &cues[..count]),
            Err(_) => unreachable!(),
        }
    }

    // Writes the line of the views.
    fn views<K: Item>(&mut self, book: &Book<'_, K>)
        requires { length self.old + 46 ≤ 388 }
        ensures { self.new ≡ self.old ++ views_text K.Item.alike (accepted book.now) }
    {
        let mut cues = [0u32; 8];
        match book.views(&mut cues) {
            Ok(Some(count)) => self.line(b"views", &cues[..count]),
            Ok(None) => self.line(b"vnone", &[]),
            Err(_) => self.line(b"vmany", &[]),
        }
    }

    // The three lines about a book.
    fn answers<K: Item>(book: &Book<'_, K>) -> Page
        ensures { AnswersWritten K.Item.alike (accepted book.now) result }
    {
        let mut page = Page::new();
        page.class(book);
        page.order(book);
        page.views(book);
        page
    }

    // The report of a sheet.
    fn report(sheet: &[u8]) -> Page
        ensures { Told sheet.now result }
    {
        let mut memory = [Entry::<Axis>::FREE; PLACES];
        let mut book = Book::new(&mut memory);
        match book.read_in(sheet) {
            Ok(_) => Page::answers(&book),
            Err(fault) => {
                let mut page = Page::new();
                page.line(b"fault", &[fault.layer.number(), fault.line as u32]);
                page
            }
        }
    }
}

// Reads a sheet of axes, writes the report to the front of the space and answers its length; or refuses a space that is shorter than
// 388 bytes, before the sheet is looked at.
pub fn cue_report(sheet: &[u8], space: &mut [u8]) -> Result<usize, Refusal>
    ensures refuses { IsErr result ↔ (length space.old < 388) }
    ensures only { IsOkUnless result Refusal.ReportShort }
    ensures keeps { OnErr result (space.new ≡ space.old) }
    ensures writes { IfOk result (λ n. Written sheet.now space.old space.new n) }
{
    if space.len() < LONGEST {
        return Err(Refusal::ReportShort);
    }
    let page = Page::report(sheet);
    let text = page.text();
    space[..text.len()].copy_from_slice(text);
    Ok(text.len())
}

// That a line is its word, its numbers, which are read again from five columns each, and a line
// feed; that the line of the class shows its number and then its place; that the lines of the order
// and of the views show what these calls answer, vmany where views is refused with 23 and only
// there; and that a report, that of a sheet too, is these three lines in this order, or the
// one line of a fault.
pub fn lines_show_answers<K>()
    ensures read { LinesAreRead }
    ensures class { ClassLineShows }
    ensures order { OrderLineShows K }
    ensures views { ViewsLineShows K }
    ensures fault { FaultLineShows K }
    ensures report { ReportShows K }
    ensures sheet { SheetReportShows }
{}
