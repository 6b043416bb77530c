// claimfit: a training sheet on standard input, the text of its fit on standard output.
#![tactic(auto)]

use console::read_full;
use sheet_fit::fit_sheet;
use std::io;

fn main(rt: HostRuntime) -> io::Result<()> {
    let mut sheet = [0u8; 35883];
    let n = read_full(&mut rt.stdin(), &mut sheet)?;
    let mut text = [0u8; 2048];
    let k = fit_sheet(&sheet[..n], &mut text);
    rt.write_all(&text[..k])
}
