// How the names of a home rank for an address.
ghost use Rattle.std.specs.Prelude.{◌≡◌, length};
ghost use Rattle.dot_qmail.specs.Ranks.{better, is_stem, rank_of, IsTop};

use mail_bytes::ByteText;

/// The best name so far.
#[derive(Clone, Copy)]
pub struct Best {
    /// How it ranks.
    pub rank: usize,
    /// Its place among the names.
    pub place: usize,
}

/// The place of the name that ranks best, of equals the first: the name that is looked for, else the default name with the
/// longest stem. `full` is the name that is looked for, whose first `base` bytes, at least one, no stem lacks. One pass over
/// the names.
pub fn best_name(names: &[ByteText], full: &[u8], base: usize) -> Option<Best>
    ensures { IsTop full.now base names.now (length names.now) result }
{
    let mut top = None;
    for (place, name) in names.iter().enumerate() {
        top = better(top, rank(name.as_slice(), full, base), place);
    }
    top
}

/// The better of the best so far and the name at this place, by its rank.
fn better(top: Option<Best>, rank: Option<usize>, place: usize) -> Option<Best>
    ensures { result ≡ better top rank place }
{
    match (top, rank) {
        (top, None) => top,
        (Some(best), Some(rank)) if rank <= best.rank => Some(best),
        (_, Some(rank)) => Some(Best { rank, place }),
    }
}

/// How a name ranks: the name that is looked for before any other, a default name by the length of its stem.
fn rank(name: &[u8], full: &[u8], base: usize) -> Option<usize>
    ensures { result ≡ rank_of full.now base name.now }
{
    if name == full {
        return Some(full.len() + 1);
    }
    if !name.ends_with(b"default") {
        return None;
    }
    let stem = &name[..name.len() - 7];
    if is_stem(stem, full, base) {
        Some(stem.len())
    } else {
        None
    }
}

/// Whether the name that is looked for begins with these bytes, and they are its first `base` bytes, or more up to a `-`.
fn is_stem(stem: &[u8], full: &[u8], base: usize) -> bool
    ensures { result ≡ is_stem full.now base stem.now }
{
    full.starts_with(stem) && (stem.len() == base || (stem.len() > base && stem.ends_with(b"-")))
}
