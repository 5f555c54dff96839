// The calls on a picture reader. A refused call gives back the reader that it was given. As a metered read does, a block's call reads
// by the exported reading, after the reader was asked for the block's turn.
ghost use Rattle.std.specs.Prelude.{◌≡◌, length};
ghost use Rattle.systems.specs.Refusals.{outcome};
ghost use Rattle.reader.specs.declared.Phase.TheVariants.{Unopened};
ghost use Rattle.reader.specs.Reader.{at, opening, taking, slice_after};
ghost use Rattle.ferghulta.specs.StoredReader.{stored_reader, reader_of, reader_answer, next_answer};

use crate::calls::{BlockAnswer, ferghulta_read_block};
use crate::refusals::in_parts;
use crate::stored_reader::StoredReader;
use reader::Reader;
use systems::Refusal;

#[repr(C)]
#[derive(Clone, Copy)]
pub struct ReaderAnswer {
    pub refusal: u32,
    pub reader: StoredReader,
}

#[repr(C)]
#[derive(Clone, Copy)]
pub struct NextAnswer {
    pub reader: StoredReader,
    pub block: BlockAnswer,
}

#[unsafe(no_mangle)]
pub extern "C" fn ferghulta_new_reader() -> StoredReader
    ensures { result ≡ stored_reader (at Unopened) }
{
    Reader::new().into()
}

#[unsafe(no_mangle)]
pub extern "C" fn ferghulta_open_reader(reader: StoredReader, height: u32) -> ReaderAnswer
    ensures { result ≡ reader_answer reader (opening (reader_of reader) height) }
{
    answer(reader, Reader::from(reader).open(height))
}

// The reader that was given takes part, so this is no From of the change alone.
fn answer(given: StoredReader, change: Result<Reader, Refusal>) -> ReaderAnswer
    ensures { result ≡ reader_answer given (outcome change) }
{
    let (refusal, reader) = in_parts(change.map(StoredReader::from), given);
    ReaderAnswer { refusal, reader }
}

#[unsafe(no_mangle)]
pub extern "C" fn ferghulta_read_next(
    reader: StoredReader,
    bytes: &[u8],
    codes: &mut [u16],
) -> NextAnswer
    ensures value { result ≡ next_answer reader (taking (reader_of reader) bytes.now (length codes.old)) }
    ensures codes_after { codes.new ≡ slice_after (reader_of reader) bytes.now codes.old }
{
    let given = Reader::from(reader);
    let after = match given.turn(bytes, codes.len()) {
        Ok(after) => after,
        Err(r) => {
            return NextAnswer {
                reader,
                block: Err(r).into(),
            };
        }
    };
    let block = ferghulta_read_block(bytes, codes);
    let next = if block.refusal == 0 {
        after.into()
    } else {
        reader
    };
    NextAnswer {
        reader: next,
        block,
    }
}
