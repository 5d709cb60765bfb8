// The wall panel and folding for C.
ghost use Rattle.std.specs.Prelude.{◌≡◌, length};
ghost use Rattle.lists.specs.Coded.{numbered};
ghost use Rattle.panel.specs.Panel.{panel_answer, cells_after, panel_coded};
ghost use Rattle.fold.specs.Fold.{fold as folding, fold_coded, fold_output_after};

#[unsafe(no_mangle)]
pub extern "C" fn rudignals_panel(digest: &[u8], tab: u64, cells: &mut [u32; 1920]) -> u64
    ensures { (result ≡ numbered (panel_coded (panel_answer tab))) × (cells.new ≡ cells_after tab digest.now) }
{
    rudignals::wall::rudignals_panel(digest, tab, cells)
}

#[unsafe(no_mangle)]
pub extern "C" fn rudignals_fold(text: &[u8], tab: u64, columns: u64, output: &mut [u8]) -> u64
    ensures { (result ≡ numbered (fold_coded (folding text.now tab columns (length output.old)))) × (output.new ≡ fold_output_after (folding text.now tab columns (length output.old)) output.old) }
{
    rudignals::wall::rudignals_fold(text, tab, columns, output)
}
