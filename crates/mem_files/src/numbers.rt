// Lists of pairs of a number and a value, in order of the numbers.
ghost use Rattle.std.specs.Prelude.{◌≡◌, ◌≢◌, ◌≤◌, ◌<◌, ◌+◌, ◌==◌, ℕ, Bool, Some, None, IsSome, IfSome, IfNone, vec_len, vec_capacity, length, count_by, if◌then◌else◌, ◌^◌};
ghost use Rattle.std.specs.Option.{option_copied};
ghost use Rattle.std.specs.Ordering.{nat_cmp};
ghost use Rattle.call_fs.specs.Maps.{put};
ghost use Rattle.mem_files.specs.Tables.{at_number, AreNumbersInOrder, IsAt, IsPlace};

/// Where the number is, or where it would go. `Ok` if it is there, `Err` if not.
pub fn place_of<V>(entries: &[(u64, V)], number: u64) -> Result<usize, usize>
    requires { AreNumbersInOrder entries.now }
    ensures { IsPlace nat_cmp entries.now number result }
{
    entries.binary_search_by_key(&number, |entry| entry.0)
}

/// Where the number is. The condition: it is there.
pub fn index_of<V>(entries: &[(u64, V)], number: u64) -> usize
    requires in_order { AreNumbersInOrder entries.now }
    requires there { IsSome (at_number entries.now number) }
    ensures { IsAt entries.now number result }
{
    place_of(entries, number).unwrap()
}

/// The value of a number.
pub fn value_of<V>(entries: &[(u64, V)], number: u64) -> Option<&V>
    requires { AreNumbersInOrder entries.now }
    ensures { option_copied result ≡ at_number entries.now number }
{
    match place_of(entries, number) {
        Ok(at) => Some(&entries[at].1),
        Err(_) => None,
    }
}

/// Gives a number a value. The conditions: it is from 1, and there is room for one more pair.
pub fn insert<V: Drop>(entries: &mut Vec<(u64, V)>, number: u64, value: V)
    requires in_order { AreNumbersInOrder entries.old.items }
    requires positive { 1 ≤ number }
    requires room { vec_len entries.old < vec_capacity entries.old }
    ensures in_order { AreNumbersInOrder entries.new.items }
    ensures value { at_number entries.new.items ≡ put (at_number entries.old.items) number (Some value) }

    // If the number had no value there is one pair more.
    ensures count { (test : ℕ × V → Bool) → at_number entries.old.items number ≡ None
        → count_by test entries.new.items ≡ count_by test entries.old.items + (if test (number, value) then 1 else 0) }
{
    match place_of(entries, number) {
        Ok(at) => {
            entries[at] = (number, value);
        }
        Err(at) => {
            entries.insert(at, (number, value)).unwrap();
        }
    }
}

/// Takes a number's value away. The condition: it has one.
pub fn remove<V: Drop>(entries: &mut Vec<(u64, V)>, number: u64)
    requires in_order { AreNumbersInOrder entries.old.items }
    requires there { IsSome (at_number entries.old.items number) }
    ensures in_order { AreNumbersInOrder entries.new.items }
    ensures value { at_number entries.new.items ≡ put (at_number entries.old.items) number None }
    ensures count { (test : ℕ × V → Bool) (value : V) → at_number entries.old.items number ≡ Some value
        → count_by test entries.old.items ≡ count_by test entries.new.items + (if test (number, value) then 1 else 0) }
{
    let at = index_of(entries, number);
    entries.remove(at);
}

/// The least number from 1 that has no value; None only if every u64 has one.
pub fn least_missing<V>(entries: &[(u64, V)]) -> Option<u64>
    requires { AreNumbersInOrder entries.now }
    ensures some { IfSome result (λ n. (1 ≤ n) × (at_number entries.now n ≡ None)
        × ((lower : ℕ) → 1 ≤ lower → lower < n → at_number entries.now lower ≢ None)) }
    ensures none { IfNone result ((n : ℕ) → 1 ≤ n → n < 2 ^ 64 → at_number entries.now n ≢ None) }
{
    for (at, entry) in entries.iter().enumerate() {
        let number = at as u64 + 1;
        if entry.0 != number {
            return Some(number);
        }
    }
    (entries.len() as u64).checked_add(1)
}
