// The compiler: from text to a table in lent memory, line by line. The events and calls of a line are written as they
// are read, its production once the whole line is judged. A refusal clears the table.
#![tactic(auto)]

mod line;
mod text;

ghost use Rattle.std.specs.Prelude.{◌≡◌};
ghost use Rattle.model.specs.Numbers.{compiled_number, compiled_place};
ghost use Rattle.compiler.specs.Compile.{compile_answer, compile_number, compile_place, compiled_bytes};

use crate::text::{compile_lines, refuse};
use model::answers::Compiled;
use scanner::lines::{BadByte, first_bad_byte};
use tables::TABLE_LENGTH;

// Compiles a text into a table, the first `TABLE_LENGTH` bytes of the buffer.
pub fn compile(text: &[u8], table: &mut [u8]) -> Compiled
    ensures answer { result ≡ compile_answer text.now table.old }
    ensures bytes { table.new ≡ compiled_bytes text.now table.old }
    ensures number { compiled_number result ≡ compile_number text.now table.old }
    ensures place { compiled_place result ≡ compile_place text.now table.old }
{
    if table.len() < TABLE_LENGTH {
        return Compiled::Refused {
            number: 1,
            place: 0,
        };
    }
    if 8192 < text.len() {
        return refuse(table, 2, 0);
    }
    match first_bad_byte(text) {
        BadByte::At(place) => refuse(table, 3, place),
        BadByte::Absent => {
            let end = TABLE_LENGTH;
            compile_lines(text, &mut table[0..end])
        }
    }
}
