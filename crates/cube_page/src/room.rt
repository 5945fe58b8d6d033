//! Texts that are handed over in rooms of a fixed length.
ghost use Rattle.cube_page.specs.Page.{IsHanded};

/// Writes as much of a text as fits at the start of a room, and tells how long the text is.
pub(crate) fn hand(text: &[u8], room: &mut [u8], size: &mut usize)
    ensures { IsHanded text.now room.new size.new }
{
    *size = text.len();
    let fits = text.len().min(room.len());
    room[..fits].copy_from_slice(&text[..fits]);
}
