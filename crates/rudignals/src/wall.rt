// The wall panel and folding, as a host calls them. The work is in the crates panel and fold.
ghost use Rattle.std.specs.Prelude.{◌≡◌, length};
ghost use Rattle.lists.specs.Coded.{numbered};
ghost use Rattle.panel.specs.Panel.{panel_answer, cells_after, panel_coded};
ghost use Rattle.fold.specs.Fold.{fold as folding, fold_coded, fold_output_after};

// The answer's number, and the cells as the answer leaves them: 24 rows of 80.
pub fn rudignals_panel(digest: &[u8], tab: u64, cells: &mut [u32; 1920]) -> u64
    ensures { (result ≡ numbered (panel_coded (panel_answer tab))) × (cells.new ≡ cells_after tab digest.now) }
{
    panel::number_of(panel::draw(digest, tab, cells))
}

// A text folded into rows of at most so many columns: the answer's number, and the output as the answer leaves it.
pub fn rudignals_fold(text: &[u8], tab: u64, columns: u64, output: &mut [u8]) -> u64
    ensures { (result ≡ numbered (fold_coded (folding text.now tab columns (length output.old)))) × (output.new ≡ fold_output_after (folding text.now tab columns (length output.old)) output.old) }
{
    lists::number_of(fold::fold(text, tab, columns, output))
}
