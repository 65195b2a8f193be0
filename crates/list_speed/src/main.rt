//! `list_speed STOP ALERT FEATURES READS` reads a stop list and an alert list so many times, then looks up each
//! line of a file of features, with itself as the context, and prints how many the lists have. The
//! difference in time between few reads and many is the speed of a read, and that between many features and
//! none the speed of a look-up, without the start of a program (`bench/lists.sh`).
#![tactic(auto)]

use anyhow::{Context, Result, bail};
use forensic_path::Class;
use std::{env, fs};
use stop_lists::Lists;

// How many lines of a file of features the lists have.
fn count_met(lists: &Lists, features: &[u8]) -> u64 {
    let mut met: u64 = 0;
    for feature in features.split(|byte| *byte == b'\n') {
        if lists.class_of(feature, feature) != Class::Plain {
            met = met.saturating_add(1);
        }
    }
    met
}

fn main(rt: HostRuntime) -> Result<()> {
    let mut words = Vec::new(rt.alloc());
    for word in env::args(&rt)?.skip(1) {
        words.push(word)?;
    }
    let [stop, alert, features, reads] = words.as_slice() else {
        bail!("usage: list_speed STOP ALERT FEATURES READS");
    };
    let reads = reads.parse::<u64>().context("reading the number of reads")?;
    let stop = fs::read(&rt, stop.as_str()).context("reading the stop list")?;
    let alert = fs::read(&rt, alert.as_str()).context("reading the alert list")?;
    let features = fs::read(&rt, features.as_str()).context("reading the features")?;
    let mut lists = Lists::read(rt.alloc(), b"", b"")?;
    for _ in 0..reads {
        lists = Lists::read(rt.alloc(), stop.as_slice(), alert.as_slice())?;
    }
    println!(rt; "{}", count_met(&lists, features.as_slice()))?;
    Ok(())
}
