//! One line after the head, taken into what came before: a function for each key, since they share only the test of what is due.
//! `kept` says in each what a line leaves as it was, which no ghost field can say.
ghost use Rattle.std.specs.Prelude.{◌≡◌};
ghost use Rattle.rules_books.specs.Books.{sheet_tables};
ghost use Rattle.file_body.specs.Body.{position_taken, claim_taken, mark_taken, line_taken};
ghost use Rattle.file_body.specs.Bodies.{body_in, leaving};

use crate::values::{claim_in, entry_in};
use arrayvec::ArrayVec;
use calls_docket::Docket;
use file_fields::values::one_field;
use file_head::faults::{LineCause, LineFault};
use rules_books::Sheet;

/// What the lines so far have led to: the docket, and at most 32 marks.
#[derive(Drop)]
pub struct Body {
    pub docket: Docket<Sheet>,
    pub marks: ArrayVec<i64, 32>,
}

impl Body {
    /// A position, before any claim and any mark.
    fn take_position(&mut self, value: &[u8]) -> Result<(), LineFault>
        ensures kept { self.new.docket ≡ record self.old.docket { tally = self.new.docket.tally } }
        ensures body { leaving result (body_in self.new)
            ≡ position_taken self.old.docket.size (body_in self.old) value.now }
    {
        if !self.docket.claims().is_empty() || !self.marks.is_empty() {
            return Err(LineCause::WrongKey.into());
        }
        self.docket.enter(&entry_in(value, 5)?)?;
        Ok(())
    }

    /// A claim, before any mark.
    fn take_claim(&mut self, value: &[u8]) -> Result<(), LineFault>
        ensures kept { self.new.docket ≡ record self.old.docket { tally = self.new.docket.tally } }
        ensures body { leaving result (body_in self.new)
            ≡ claim_taken (sheet_tables self.old.docket.book) self.old.docket.size
            (body_in self.old) value.now }
    {
        if !self.marks.is_empty() {
            return Err(LineCause::WrongKey.into());
        }
        let claim = claim_in(value, 7)?;
        if self.docket.has_claim(&claim) {
            return Err(LineCause::Repeated.into());
        }
        self.docket.claim(&claim)?;
        Ok(())
    }

    /// A mark, the 32nd at most.
    fn take_mark(&mut self, value: &[u8]) -> Result<(), LineFault>
        ensures kept { self.new.docket ≡ self.old.docket }
        ensures body { leaving result (body_in self.new)
            ≡ mark_taken (body_in self.old) value.now }
    {
        if self.marks.is_full() {
            return Err(LineCause::WrongKey.into());
        }
        self.marks.push(one_field(value, 6)?);
        Ok(())
    }

    /// One line, by its key: tests of the prefix in turn, since each key has its own value.
    #[tactic(auto, unfolding(crate::specs::Body::line_taken))]
    pub(crate) fn take_line(&mut self, line: &[u8]) -> Result<(), LineFault>
        ensures kept { self.new.docket ≡ record self.old.docket { tally = self.new.docket.tally } }
        ensures body { leaving result (body_in self.new)
            ≡ line_taken (sheet_tables self.old.docket.book) self.old.docket.size
            (body_in self.old) line.now }
    {
        if let Some(value) = line.strip_prefix(b"pos=") {
            return self.take_position(value);
        }
        if let Some(value) = line.strip_prefix(b"claim=") {
            return self.take_claim(value);
        }
        if let Some(value) = line.strip_prefix(b"mark=") {
            return self.take_mark(value);
        }
        Err(LineCause::WrongKey.into())
    }
}
