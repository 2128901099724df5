//! Lists of so many numbers below as many, one by one in lexicographic order: the strict orders are among them.
ghost use Rattle.std.specs.Prelude.{◌≡◌, ◌≤◌, ◌-◌, ◌^◌, ◌↔◌, IsTrue, length, take};
ghost use Rattle.rp_limits.specs.declared.menu.TheConstants.{LETTERS};
ghost use Rattle.rp_orders.specs.InnerLists.{digits, first_missing, listed_order};
ghost use Rattle.rp_orders.specs.Orders.{IsStrictOrder};

/// How many lists there are: as many as there are of all letters but the last, one of so many in each place.
pub fn lists(letters: u32) -> u32
    requires some { 1 ≤ letters }
    requires few { letters ≤ LETTERS }
    ensures exact { result ≡ letters ^ (letters - 1) }
    ensures few { result ≤ 7776 }
{
    letters.pow(letters - 1)
}

/// List number `n` of them, at the front of room for the most letters: all letters but the last are those of the
/// number, and the last is the first letter that is not among these.
pub fn list_at(letters: u32, n: u32) -> [u32; 6]
    requires some { 1 ≤ letters }
    requires few { letters ≤ LETTERS }
    ensures { take letters result ≡ listed_order letters n }
{
    let mut list = [0; 6];
    write_list(letters, n, &mut list[..letters as usize]);
    list
}

/// Writes list number `n` into as many places.
fn write_list(letters: u32, n: u32, list: &mut [u32])
    requires some { 1 ≤ letters }
    requires places { length list.old ≡ letters }
    ensures { list.new ≡ listed_order letters n }
{
    let last = list.len() - 1;
    write_digits(letters, n, &mut list[..last]);
    list[last] = missing(letters, &list[..last]);
}

/// Writes the digits of a number to a base, the greatest place first.
fn write_digits(base: u32, n: u32, places: &mut [u32])
    requires { 1 ≤ base }
    ensures { places.new ≡ digits base (length places.old) n }
{
    let mut rest = n;
    for j in 0..places.len() {
        let place = places.len() - 1 - j;
        places[place] = rest % base;
        rest /= base;
    }
}

/// The first letter that is not in a list, or as many as there are letters.
fn missing(letters: u32, list: &[u32]) -> u32
    ensures { result ≡ first_missing letters list.now }
{
    for letter in 0..letters {
        if !list.contains(&letter) {
            return letter;
        }
    }
    letters
}

/// Whether a list is a strict order of so many letters: each of them once.
pub fn is_order(letters: u32, list: &[u32]) -> bool
    ensures { IsTrue result ↔ IsStrictOrder letters list.now }
{
    if list.len() != letters as usize {
        return false;
    }
    for j in 0..list.len() {
        if list[j] >= letters || list[..j].contains(&list[j]) {
            return false;
        }
    }
    true
}
