//! The words of the command line.

use crate::cuts::Cuts;
use crate::sectors::Slots;
use crate::trees::Changes;
use crate::turns::Crew;

/// What the program prints where the words are wrong: N is less than 1, or more than 2^20 for a shelf, or there are fewer
/// threads than 1 or more than 64, or places that no contract has, or pieces that no file is cut into.
pub(crate) const USAGE: &str =
    "usage: sia_bench digest FILE N | block FILE N | turn THREADS N | range FILE N | journal FILE N | open FILE | shelf FILE N | roottree PLACES CHANGES WHOLES | pieces FILE K N TIMES | give ADDR SIZE N | take ADDR LIMIT";

/// What to run.
#[derive(Clone, Copy)]
pub(crate) enum Kernel<'a> {
    /// Hash the file as many times.
    Digest {
        file: &'a str,
        times: u64,
    },
    /// Decode, encode and hash the block of the file as many times.
    Block {
        file: &'a str,
        times: u64,
    },
    /// Let each of the threads take as many turns, and then as many locks.
    Turn {
        crew: Crew,
        times: u64,
    },
    /// Prove and check a range of the file's leaves as many times.
    Range {
        file: &'a str,
        times: u64,
    },
    /// Append as many records to the journal of the file.
    Journal {
        file: &'a str,
        times: u64,
    },
    /// Open the journal of the file and read its records.
    Open {
        file: &'a str,
    },
    /// Put and sync as many sectors in the file.
    Shelf {
        file: &'a str,
        slots: Slots,
    },
    /// Change a tree of roots, and hash its list.
    Tree {
        changes: Changes,
    },
    /// Cut the file into pieces, and join it of the last ones.
    Pieces {
        file: &'a str,
        cuts: Cuts,
    },
    /// Send as many frames with bodies of so many bytes to who connects to the address.
    Give {
        address: &'a str,
        size: usize,
        times: u64,
    },
    /// Take frames from the address to their end.
    Take {
        address: &'a str,
        limit: u64,
    },
}

/// The kernel that the words name.
pub(crate) fn kernel_of(words: &[String]) -> Option<Kernel<'_>> {
    match words {
        [name, file] if name.as_str() == "open" => Some(Kernel::Open {
            file: file.as_str(),
        }),
        [name, address, limit] if name.as_str() == "take" => Some(Kernel::Take {
            address: address.as_str(),
            limit: limit.as_str().parse().ok()?,
        }),
        [name, address, size, times] if name.as_str() == "give" => Some(Kernel::Give {
            address: address.as_str(),
            size: size.as_str().parse().ok()?,
            times: times.as_str().parse().ok()?,
        }),
        [name, on, times] => repeated(name.as_str(), on.as_str(), times.as_str().parse().ok()?),
        [name, places, changes, wholes] if name.as_str() == "roottree" => {
            let places = places.as_str().parse().ok()?;
            let changes = changes.as_str().parse().ok()?;
            let changes = Changes::of(places, changes, wholes.as_str().parse().ok()?)?;
            Some(Kernel::Tree { changes })
        }
        [name, file, k, n, times] if name.as_str() == "pieces" => {
            let k = k.as_str().parse().ok()?;
            let n = n.as_str().parse().ok()?;
            let cuts = Cuts::of(k, n, times.as_str().parse().ok()?)?;
            Some(Kernel::Pieces {
                file: file.as_str(),
                cuts,
            })
        }
        _ => None,
    }
}

/// The kernel of a name that does something as many times, at least once.
fn repeated<'a>(name: &str, on: &'a str, times: u64) -> Option<Kernel<'a>> {
    if times == 0 {
        return None;
    }
    match name {
        "digest" => Some(Kernel::Digest { file: on, times }),
        "block" => Some(Kernel::Block { file: on, times }),
        "turn" => {
            let crew = Crew::of(on.parse().ok()?)?;
            Some(Kernel::Turn { crew, times })
        }
        "range" => Some(Kernel::Range { file: on, times }),
        "journal" => Some(Kernel::Journal { file: on, times }),
        "shelf" => {
            let slots = Slots::of(times)?;
            Some(Kernel::Shelf { file: on, slots })
        }
        _ => None,
    }
}

#[cfg(test)]
mod tests {
    use super::*;
    use std::test::Fail;

    #[test]
    fn words_name_a_kernel(rt: HostRuntime) -> Result<(), Fail> {
        let cases: [(&[&str], bool); 20] = [
            (&["digest", "abc", "3"], true),
            (&["digest", "abc", "0"], false),
            (&["digest", "abc", "three"], false),
            (&["digests", "abc", "3"], false),
            (&["block", "abc", "3"], true),
            (&["turn", "65", "3"], false),
            (&["range", "abc", "3"], true),
            (&["journal", "abc", "3"], true),
            (&["open", "abc"], true),
            (&["open", "abc", "3"], false),
            (&["shelf", "abc", "1048576"], true),
            (&["shelf", "abc", "1048577"], false),
            (&["roottree", "65536", "10", "1"], true),
            (&["roottree", "65537", "10", "1"], false),
            (&["roottree", "0", "10", "1"], false),
            (&["pieces", "abc", "10", "16", "1"], true),
            (&["pieces", "abc", "10", "17", "1"], false),
            (&["give", "127.0.0.1:80", "100", "3"], true),
            (&["take", "127.0.0.1:80", "100"], true),
            (&["take", "127.0.0.1:80", "all"], false),
        ];
        for (line, named) in cases {
            let mut words = Vec::new(rt.alloc());
            for word in line {
                words.push(String::from_str(rt.alloc(), word)?)?;
            }
            assert!(rt; kernel_of(words.as_slice()).is_some() == named);
        }
        Ok(())
    }
}
