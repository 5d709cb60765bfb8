// The calls of RULES 14 for C.
ghost use Rattle.std.specs.Prelude.{◌≡◌, min, length};
ghost use Rattle.lists.specs.Coded.{numbered};
ghost use Rattle.salvage.specs.Mending.{mend, mend_coded, copy_after, places_after, bytes_after};
ghost use Rattle.salvage.specs.Restoring.{listed, restore, restore_coded, notes_after};

#[unsafe(no_mangle)]
pub extern "C" fn rudignals_mend(
    notes: &[u8],
    copy: &mut [u8],
    places: &mut [u32],
    bytes: &mut [u8],
) -> u64
    ensures { (result ≡ numbered (mend_coded (mend notes.now (length copy.old) (min (length places.old) (length bytes.old))))) × (copy.new ≡ copy_after (mend notes.now (length copy.old) (min (length places.old) (length bytes.old))) copy.old) × (places.new ≡ places_after (mend notes.now (length copy.old) (min (length places.old) (length bytes.old))) places.old) × (bytes.new ≡ bytes_after (mend notes.now (length copy.old) (min (length places.old) (length bytes.old))) bytes.old) }
{
    rudignals::mending::rudignals_mend(notes, copy, places, bytes)
}

#[unsafe(no_mangle)]
pub extern "C" fn rudignals_restore(
    copy: &[u8],
    places: &[u32],
    bytes: &[u8],
    notes: &mut [u8],
) -> u64
    ensures { (result ≡ numbered (restore_coded (restore copy.now (listed places.now bytes.now) (length notes.old)))) × (notes.new ≡ notes_after (restore copy.now (listed places.now bytes.now) (length notes.old)) notes.old) }
{
    rudignals::mending::rudignals_restore(copy, places, bytes, notes)
}
