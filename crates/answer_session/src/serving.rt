//! The docket that a head opens, and the lines after it.
ghost use Rattle.std.specs.Prelude.{◌≡◌, IfOk, OnOk, OnErr, string_bytes};
ghost use Rattle.std.specs.Result.{result_map_both};
ghost use Rattle.rules_books.specs.Books.{sheet_tables};
ghost use Rattle.certificate_pairing.specs.Dockets.{empty, docket_by};
ghost use Rattle.file_head.specs.Lines.{pieces};
ghost use Rattle.answer_session.specs.Lines.{call_at};
ghost use Rattle.answer_session.specs.Sessions.{line_reply, after_line, lines_text, head_in};
ghost use Rattle.answer_session.specs.Laws.{whole_lines, tally_after_lines};
ghost use Rattle.answer_session.specs.Sent.{opening};

use crate::replies::LineReply;
use crate::sent::{CallFault, call_in};
use answer_docket::FileFault;
use calls_docket::Docket;
use calls_serve::serve;
use file_head::faults::ReadFault;
use file_head::head::open_docket;
use file_head::limit::fits;
use file_head::reader::Reader;
use rules_books::Sheet;
use std::alloc::{AllocError, Global};

/// What the head of the input opens: the docket, and the lines after it.
#[derive(Drop)]
pub struct Opened<'a> {
    pub reader: Reader<'a>,
    pub docket: Docket<Sheet>,
}

/// The reply to a line, whichever call it sends; a line that sends none changes nothing.
#[tactic(auto, using(crate::proofs::Calls::same_reply))]
fn answer(
    heap: Global,
    docket: &mut Docket<Sheet>,
    number: usize,
    line: &[u8],
) -> Result<LineReply, AllocError>
    ensures reply { IfOk result (λ r. r
        ≡ line_reply (docket_by sheet_tables docket.old) number (call_at line.now)) }
    ensures after { OnOk result (docket.new ≡ record docket.old {
      tally = after_line (docket_by sheet_tables docket.old) (call_at line.now);
    }) }
    ensures none { OnErr result (docket.new ≡ docket.old) }
{
    match call_in(heap, line) {
        Ok(sent) => Ok(serve(docket, &sent.call()).into()),
        Err(CallFault::Bad(fault)) => Ok(LineReply::Bad(ReadFault::on(number, fault))),
        Err(CallFault::Memory(error)) => Err(error),
    }
}

impl<'a> Opened<'a> {
    /// The length of the input is tested first.
    pub(crate) fn new(input: &'a [u8]) -> Result<Opened<'a>, FileFault>
        ensures head { result_map_both opening (λ e. e) result ≡ head_in input.now }
        ensures tally { IfOk result (λ o. o.docket.tally ≡ empty) }
    {
        if !fits(input) {
            return Err(FileFault::TooLong);
        }
        let mut reader = Reader::new(input);
        let docket = open_docket(&mut reader)?;
        Ok(Opened { reader, docket })
    }

    /// The text of the replies to all lines.
    pub(crate) fn serve_lines(&mut self, heap: Global) -> Result<String, AllocError>
        ensures text { IfOk result (λ t. string_bytes t
            ≡ lines_text (docket_by sheet_tables self.old.docket)
            self.old.reader.line_number (pieces self.old.reader)) }
        ensures after { OnOk result (self.new.docket ≡ record self.old.docket {
          tally = tally_after_lines (docket_by sheet_tables self.old.docket)
              (whole_lines (pieces self.old.reader));
        }) }
    {
        let mut out = String::new(heap);
        loop {
            let line = self.reader.line_number();
            match self.reader.next_line() {
                Ok(None) => return Ok(out),
                Ok(Some(bytes)) => {
                    let reply = answer(heap, &mut self.docket, line, bytes)?;
                    write!(out, "{reply}")?;
                }
                Err(fault) => {
                    write!(out, "{}", LineReply::Bad(fault))?;
                    return Ok(out);
                }
            }
        }
    }
}
