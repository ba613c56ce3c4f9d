// Marks the file `sheet` by the file `paper` and prints one line.
#![tactic(auto)]

fn main(rt: HostRuntime) {
    // 65,536 bytes each, above the longest paper (21,036) and sheet (16,006): of a longer file so much is read that it stays too long.
    let mut paper = [0u8; 65536];
    let p = files::load(&rt, b"paper", &mut paper);
    let mut sheet = [0u8; 65536];
    let s = files::load(&rt, b"sheet", &mut sheet);
    let mut out = [0u8; 64];
    let n = line::line(marker::mark(&paper[..p], &sheet[..s]), &mut out);
    files::tell_failure(&rt, "standard output", rt.write_all(&out[..n]));
}
