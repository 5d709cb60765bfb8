// The calls of RULES 12: the digest written with an index beside it, and the way back from an output line to the notes. The work is in the
// crates indexer and index.
ghost use Rattle.std.specs.Prelude.{◌≡◌, length};
ghost use Rattle.index.specs.Lookup.{lookup, answered, part_after};
ghost use Rattle.formatter.specs.Format.{own_room};
ghost use Rattle.lists.specs.Coded.{numbered};
ghost use Rattle.indexer.specs.Answers.{index_coded, index_output_after, records_after, filled_after};
ghost use Rattle.indexer.specs.Indexing.{index_lending, indexing};

use index::Record;

// The working room, in numbers: for the marks of the longest notes, 4,096, and for the most words of a paragraph, of which each takes fifteen.
const NUMBERS: usize = 19456;

// The answer's number, and the output, the records and the count of those filled as the answer leaves them. Nothing is stored in the records
// before it is known that all of them and all of the digest fit: until then a table of marks tells them.
pub fn rudignals_write_indexed(
    options: &[u8],
    notes: &[u8],
    output: &mut [u8],
    index: &mut [Record],
    filled: &mut u64,
) -> u64
    ensures { (result ≡ numbered (index_coded (indexing own_room options.now notes.now (length output.old) (length index.old)))) × (output.new ≡ index_output_after (indexing own_room options.now notes.now (length output.old) (length index.old)) output.old) × (index.new ≡ records_after (indexing own_room options.now notes.now (length output.old) (length index.old)) index.old) × (filled.new ≡ filled_after (indexing own_room options.now notes.now (length output.old) (length index.old))) }
{
    let mut work = [0u32; NUMBERS];
    let t = indexer::write_marked(options, notes, output, index.len(), filled, &mut work);
    index::store_records(index, t.records, &work);
    t.answer
}

// The same in working room that the host lends, which may hold anything.
pub fn rudignals_write_indexed_large(
    options: &[u8],
    notes: &[u8],
    output: &mut [u8],
    index: &mut [Record],
    filled: &mut u64,
    work: &mut [u32],
) -> u64
    ensures { (result ≡ numbered (index_coded (indexing (index_lending (length work.old)) options.now notes.now (length output.old) (length index.old)))) × (output.new ≡ index_output_after (indexing (index_lending (length work.old)) options.now notes.now (length output.old) (length index.old)) output.old) × (index.new ≡ records_after (indexing (index_lending (length work.old)) options.now notes.now (length output.old) (length index.old)) index.old) × (filled.new ≡ filled_after (indexing (index_lending (length work.old)) options.now notes.now (length output.old) (length index.old))) }
{
    let t = indexer::write_marked_large(options, notes, output, index.len(), filled, work);
    index::store_records(index, t.records, work);
    t.answer
}

// 1 and the part's place and length, or 0 and nothing written.
pub fn rudignals_lookup(
    index: &[Record],
    filled: u64,
    notes: &[u8],
    line: u64,
    part: &mut [u64; 2],
) -> u64
    ensures { (result ≡ answered (lookup index.now filled (length notes.now) line)) × (part.new ≡ part_after (lookup index.now filled (length notes.now) line) part.old) }
{
    index::tell(index::lookup(index, filled, notes.len(), line), part)
}
