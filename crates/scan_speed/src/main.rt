//! `scan_speed SEARCH FILE TIMES` runs a search over the bytes of a file so many times, and prints how
//! much one run finds. The difference in time between few runs and many is the speed of the search
//! itself, without the start of a program and the reading of a file.
//!
//! SEARCH is `url` (URLs and domains), `net` (packets), `exec` (executables and compressed files), `find`
//! (8 keywords, and `find1` or `find64` that many), `pattern` (4 patterns, and `pattern1` one), `word`
//! (words of 6 to 14 bytes), `base64`, `hex` or `utf16` (where such texts begin), which count marks and
//! starts, or `all`, which counts the features of a scan by every scanner but the one for words, without
//! keywords and patterns, five levels deep, and `xor`, the same with the XOR view of each buffer.
#![tactic(auto)]

mod keywords;
mod search;

use crate::search::{Search, Searcher};
use anyhow::{Context, Result, bail};
use sbuf_nest::Sbuf;
use std::{env, fs};

fn main(rt: HostRuntime) -> Result<()> {
    let mut words = Vec::new(rt.alloc());
    for word in env::args(&rt)?.skip(1) {
        words.push(word)?;
    }
    let [search, file, times] = words.as_slice() else {
        bail!("usage: scan_speed SEARCH FILE TIMES");
    };
    let Some(wanted) = Search::named(search.as_str()) else {
        bail!("no such search: {search}");
    };
    let times = times.parse::<u64>().context("reading the number of times")?;
    let bytes = fs::read(&rt, file.as_str()).context("reading the file")?;
    let sb = Sbuf::child(bytes.as_slice());
    let mut searcher = Searcher::make(rt.alloc())?;
    let mut found = 0;
    for _ in 0..times {
        found = searcher.run(wanted, &sb)?;
    }
    println!(rt; "{found}")?;
    Ok(())
}
