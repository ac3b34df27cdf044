//! The word that tells seeds.

/// A seed, or all from one to another.
#[derive(Debug, Clone, Copy, PartialEq, Eq)]
pub(crate) enum Seeds {
    One(u64),
    Each { first: u64, last: u64 },
}

// A number in digits alone, without a 0 before them.
fn number_in(word: &str) -> Option<u64> {
    match word.as_bytes() {
        [b'0'] => Some(0),
        [b'1'..=b'9', ..] => word.parse::<u64>().ok(),
        _ => None,
    }
}

/// What seeds a word tells.
pub(crate) fn seeds_in(word: &str) -> Option<Seeds> {
    let Some((first, last)) = word.split_once("..") else {
        return Some(Seeds::One(number_in(word)?));
    };
    let (first, last) = (number_in(first)?, number_in(last)?);
    if first <= last {
        Some(Seeds::Each { first, last })
    } else {
        None
    }
}

/// Whether words run a script over disks that are not kept.
pub(crate) fn keeps_no_disks(words: &[String]) -> bool {
    match words.split_first() {
        Some((command, options)) => {
            command.as_str() == "run"
                && options.iter().all(|word| word.as_str() != "--dir"
                    && !word.as_str().starts_with("--dir="))
        }
        None => false,
    }
}
