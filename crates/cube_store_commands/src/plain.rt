//! The fields of a text without quotes and line ends.
ghost use Rattle.std.specs.Prelude.{◌≡◌, ◌<◌, All, length, IfNone, IfSome, OnOk};
ghost use Rattle.std.specs.Bool.{OnTrue};
ghost use Rattle.std.specs.List.{AllWithin, HoldsAt};
ghost use Rattle.csv.specs.Records.{fields_of};
ghost use Rattle.csv.specs.Writing.{comma};
ghost use Rattle.cube_store_commands.specs.Pieces.{IsPlainByte, pieces};

use csv::ByteRecord;
use std::alloc::AllocError;

/// Whether a text has neither a quote nor a line end.
pub fn is_plain(text: &[u8]) -> bool
    ensures { OnTrue result (All IsPlainByte text.now) }
{
    text.iter().all(|byte| is_plain_byte(*byte))
}

fn is_plain_byte(byte: u8) -> bool
    ensures { OnTrue result (IsPlainByte byte) }
{
    !matches!(byte, b'"' | b'\r' | b'\n')
}

/// Takes what stands between the commas of a text as the fields of a record. The only error is that memory ran out.
pub fn read_pieces(text: &[u8], fields: &mut ByteRecord) -> Result<(), AllocError>
    ensures { OnOk result (fields_of fields.new ≡ pieces text.now) }
{
    fields.clear();
    let mut left = text;
    while let Some(place) = comma_in(left) {
        let (piece, rest) = left.split_at(place);
        fields.push_field(piece)?;
        left = &rest[1..];
    }
    fields.push_field(left)
}

// Where the first comma of a text is.
fn comma_in(text: &[u8]) -> Option<usize>
    ensures none { IfNone result (AllWithin (λ b. b ≡ comma → ⊥) text.now 0 (length text.now)) }
    ensures within { IfSome result (λ place. place < length text.now) }
    ensures found { IfSome result (HoldsAt (λ b. b ≡ comma) text.now) }
    ensures before { IfSome result (AllWithin (λ b. b ≡ comma → ⊥) text.now 0) }
{
    text.iter().position(|byte| *byte == b',')
}
