// The text of a report, as the program prints it, in a buffer that the caller lends.
#![tactic(auto)]

mod lines;

ghost use Rattle.std.specs.Prelude.{◌≡◌, ◌+◌, ◌≤◌, length};
ghost use Rattle.layout.specs.Written.{written};
ghost use Rattle.text.specs.Lines.{charges_text, refusal_text, report_text};
ghost use Rattle.text.specs.Inner.Pieces.{most_text, Wrote};

use crate::lines::Text;
use book::Refusal;
use charges::Report;

// Seven lines with names of at most 78 bytes together and numbers of at most 20 digits.
pub const MOST_TEXT: usize = 232;

// Writes the text of a report at the start of out, and says how long it is; the bytes past it keep their values.
pub fn write_report(report: Report, out: &mut [u8; MOST_TEXT]) -> usize
    ensures { (result ≡ length (report_text report)) × (result ≤ length out.new) × (out.new ≡ written out.old 0 (report_text report)) }
{
    let mut text = Text { out, length: 0 };
    if report.refusal.number == 0 {
        text.push_charges(report);
    } else {
        text.push_refusal(report.refusal);
    }
    text.length
}

impl<'a> Text<'a> {
    // The lines of the six charges and the total.
    fn push_charges(&mut self, report: Report)
        requires { self.old.length + most_text ≤ length self.old.out.now }
        ensures same { self.new.out.ghost_name ≡ self.old.out.ghost_name }
        ensures wrote { Wrote self.old.out.now self.old.length (charges_text report) self.new.length self.new.out.now }
    {
        self.push_line(b"interest-specific", report.interest.specific);
        self.push_line(b"interest-general", report.interest.general);
        self.push_line(b"equity-specific", report.equity.specific);
        self.push_line(b"equity-general", report.equity.general);
        self.push_line(b"fx", report.exchange);
        self.push_line(b"commodity", report.commodity);
        self.push_line(b"total", report.total);
    }

    // The line of a refusal.
    #[tactic(auto, using(crate::proofs::Pieces::most_digits))]
    fn push_refusal(&mut self, refusal: Refusal)
        requires { self.old.length + most_text ≤ length self.old.out.now }
        ensures same { self.new.out.ghost_name ≡ self.old.out.ghost_name }
        ensures wrote { Wrote self.old.out.now self.old.length (refusal_text refusal) self.new.length self.new.out.now }
    {
        self.push(b"refused ");
        self.push_decimal(u64::from(refusal.number));
        self.push_line(b" row", u64::from(refusal.row));
    }
}
