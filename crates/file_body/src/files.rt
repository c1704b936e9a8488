//! A whole file.
ghost use Rattle.std.specs.Prelude.{◌≡◌, ◌≤◌, IfOk};
ghost use Rattle.std.specs.Result.{result_map_both};
ghost use Rattle.rules_books.specs.Books.{sheet_tables};
ghost use Rattle.file_head.specs.Lines.{pieces};
ghost use Rattle.file_head.specs.Rates.{rates_on};
ghost use Rattle.file_body.specs.Body.{body_from};
ghost use Rattle.file_body.specs.Bodies.{body_in, leaving};
ghost use Rattle.file_body.specs.Files.{read_file, content};

use crate::body::Body;
use arrayvec::ArrayVec;
use calls_docket::Docket;
use file_head::faults::ReadFault;
use file_head::head::open_docket;
use file_head::reader::Reader;
use rules_books::Sheet;

/// Takes all lines that are left.
/// `kept` says what they leave as it was, which no ghost field can say.
fn take_lines(reader: &mut Reader, body: &mut Body) -> Result<(), ReadFault>
    ensures kept { body.new.docket ≡ record body.old.docket { tally = body.new.docket.tally } }
    ensures body { leaving result (body_in body.new)
        ≡ body_from (sheet_tables body.old.docket.book) body.old.docket.size
        reader.old.line_number (body_in body.old) (pieces reader.old) }
{
    let mut line = reader.line_number();
    while let Some(bytes) = reader.next_line()? {
        body.take_line(bytes)
            .map_err(|fault| ReadFault::on(line, fault))?;
        line = reader.line_number();
    }
    Ok(())
}

/// The docket that a file describes, with its marks, or the first fault of its lines in their order; docs/FORMAT.md has the lines.
pub fn gather(file: &[u8]) -> Result<Body, ReadFault>
    ensures { result_map_both
        (λ b. content b.docket.size (rates_on b.docket.book) (body_in b)) (λ e. e) result
        ≡ read_file file.now }
{
    let mut reader = Reader::new(file);
    let docket = open_docket(&mut reader)?;
    let mut body = Body {
        docket,
        marks: ArrayVec::new(),
    };
    take_lines(&mut reader, &mut body)?;
    Ok(body)
}
