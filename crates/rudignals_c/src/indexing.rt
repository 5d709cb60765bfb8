// The calls of RULES 12 for C.
ghost use Rattle.std.specs.Prelude.{◌≡◌, length};
ghost use Rattle.index.specs.Lookup.{lookup, answered, part_after};
ghost use Rattle.formatter.specs.Format.{own_room};
ghost use Rattle.lists.specs.Coded.{numbered};
ghost use Rattle.indexer.specs.Answers.{index_coded, index_output_after, records_after, filled_after};
ghost use Rattle.indexer.specs.Indexing.{index_lending, indexing};

use index::Record;

#[unsafe(no_mangle)]
pub extern "C" fn rudignals_write_indexed(
    options: &[u8],
    notes: &[u8],
    output: &mut [u8],
    index: &mut [Record],
    filled: &mut u64,
) -> u64
    ensures { (result ≡ numbered (index_coded (indexing own_room options.now notes.now (length output.old) (length index.old)))) × (output.new ≡ index_output_after (indexing own_room options.now notes.now (length output.old) (length index.old)) output.old) × (index.new ≡ records_after (indexing own_room options.now notes.now (length output.old) (length index.old)) index.old) × (filled.new ≡ filled_after (indexing own_room options.now notes.now (length output.old) (length index.old))) }
{
    rudignals::indexing::rudignals_write_indexed(options, notes, output, index, filled)
}

#[unsafe(no_mangle)]
pub extern "C" fn rudignals_write_indexed_large(
    options: &[u8],
    notes: &[u8],
    output: &mut [u8],
    index: &mut [Record],
    filled: &mut u64,
    work: &mut [u32],
) -> u64
    ensures { (result ≡ numbered (index_coded (indexing (index_lending (length work.old)) options.now notes.now (length output.old) (length index.old)))) × (output.new ≡ index_output_after (indexing (index_lending (length work.old)) options.now notes.now (length output.old) (length index.old)) output.old) × (index.new ≡ records_after (indexing (index_lending (length work.old)) options.now notes.now (length output.old) (length index.old)) index.old) × (filled.new ≡ filled_after (indexing (index_lending (length work.old)) options.now notes.now (length output.old) (length index.old))) }
{
    rudignals::indexing::rudignals_write_indexed_large(options, notes, output, index, filled, work)
}

#[unsafe(no_mangle)]
pub extern "C" fn rudignals_lookup(
    index: &[Record],
    filled: u64,
    notes: &[u8],
    line: u64,
    part: &mut [u64; 2],
) -> u64
    ensures { (result ≡ answered (lookup index.now filled (length notes.now) line)) × (part.new ≡ part_after (lookup index.now filled (length notes.now) line) part.old) }
{
    rudignals::indexing::rudignals_lookup(index, filled, notes, line, part)
}
