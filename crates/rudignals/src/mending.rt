// The calls of RULES 14: notes in ISO 8859-1 made readable, and the way back. The work is in the crate salvage.
ghost use Rattle.std.specs.Prelude.{◌≡◌, min, length};
ghost use Rattle.lists.specs.Coded.{numbered};
ghost use Rattle.salvage.specs.Mending.{mend, mend_coded, copy_after, places_after, bytes_after};
ghost use Rattle.salvage.specs.Restoring.{listed, restore, restore_coded, notes_after};

// The answer's number, and the copy and the list as the answer leaves them. The list has as many places as the shorter of its slices.
pub fn rudignals_mend(notes: &[u8], copy: &mut [u8], places: &mut [u32], bytes: &mut [u8]) -> u64
    ensures { (result ≡ numbered (mend_coded (mend notes.now (length copy.old) (min (length places.old) (length bytes.old))))) × (copy.new ≡ copy_after (mend notes.now (length copy.old) (min (length places.old) (length bytes.old))) copy.old) × (places.new ≡ places_after (mend notes.now (length copy.old) (min (length places.old) (length bytes.old))) places.old) × (bytes.new ≡ bytes_after (mend notes.now (length copy.old) (min (length places.old) (length bytes.old))) bytes.old) }
{
    lists::number_of(salvage::mend(notes, copy, places, bytes))
}

// The answer's number, and the notes as the answer leaves them.
pub fn rudignals_restore(copy: &[u8], places: &[u32], bytes: &[u8], notes: &mut [u8]) -> u64
    ensures { (result ≡ numbered (restore_coded (restore copy.now (listed places.now bytes.now) (length notes.old)))) × (notes.new ≡ notes_after (restore copy.now (listed places.now bytes.now) (length notes.old)) notes.old) }
{
    lists::number_of(salvage::restore(copy, places, bytes, notes))
}
