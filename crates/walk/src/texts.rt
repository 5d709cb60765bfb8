// A paragraph of the notes that the work has come to: what the functions that go on from there are given.
ghost use Rattle.walk.specs.Cited.Alone.{CursorIn-prop, TextAhead-prop};
ghost use Rattle.walk.specs.Cited.Course.{CursorIn, TextAhead};

use crate::notes::Notes;
use paragraphs::Cursor;
use pieces::Paragraph;

// The notes, where the cursor stands in them, and the paragraph that begins there.
#[derive(Clone, Copy, Debug)]
pub struct Text<'a> {
    pub notes: Notes<'a>,
    pub c: Cursor,
    pub p: Paragraph,
    ghost stands: { CursorIn notes.bytes.now c } by { CursorIn-prop notes.bytes.now c },
    ghost ahead: { TextAhead notes.block.now notes.options notes.bytes.now c p } by { TextAhead-prop notes.block.now notes.options notes.bytes.now c p },
}
