//! The numbers of live blocks, in order.
ghost use Rattle.il_mem.specs.Changed.{Rising, Stands};

/// Where a number stands, found by halves.
fn search(numbers: &[u128], number: u128) -> Option<usize>
    requires { Rising numbers.now }
    ensures { Stands numbers.now number result }
{
    match numbers.binary_search(&number) {
        Ok(at) => Some(at),
        Err(_) => None,
    }
}

/// As far from the last one as the number is, where it stands if none behind it is missing.
fn guess(numbers: &[u128], number: u128) -> usize {
    let count = numbers.len();
    match numbers.last() {
        Some(last) => {
            let behind = last.saturating_sub(number).min(count as u128) as usize;
            count.saturating_sub(1).saturating_sub(behind)
        }
        None => 0,
    }
}

/// Where a number stands that doesn't stand at the place that is the number itself.
#[inline(never)]
fn place_behind(numbers: &[u128], number: u128) -> Option<usize>
    requires { Rising numbers.now }
    ensures { Stands numbers.now number result }
{
    let at = guess(numbers, number);
    if at < numbers.len() && numbers[at] == number {
        Some(at)
    } else {
        search(numbers, number)
    }
}

/// Where a number stands, if it is there. It is looked for first at the place that is the number itself,
/// where it stands if none before it is missing.
pub fn place_of(numbers: &[u128], number: u128) -> Option<usize>
    requires { Rising numbers.now }
    ensures { Stands numbers.now number result }
{
    if number < numbers.len() as u128 && numbers[number as usize] == number {
        Some(number as usize)
    } else {
        place_behind(numbers, number)
    }
}
