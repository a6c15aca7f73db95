//! Where each column of a dictionary stands at the start.

ghost use Rattle.std.specs.Prelude.{◌≡◌, ◌<◌, ◌+◌, ◌^◌, ℕ, slice_index_or, length};
ghost use Rattle.rob_simplex.specs.Starts.{start_place, start_column};

/// The place of a column.
fn place_of(n: usize, m: usize, c: usize) -> usize
    requires few { n + m < 2 ^ 31 }
    ensures value { result ≡ start_place n m c }
{
    if c < n {
        return c;
    }
    if c < n + m {
        return c + 3;
    }
    if c == n + m {
        return n;
    }
    if c == n + m + 1 {
        return n + 3 + m;
    }
    if c == n + m + 2 {
        return n + 2;
    }
    n + 1
}

/// The column at a place.
fn column_at(n: usize, m: usize, k: usize) -> usize
    requires few { n + m < 2 ^ 31 }
    ensures value { result ≡ start_column n m k }
{
    if k < n {
        return k;
    }
    if k == n {
        return n + m;
    }
    if k == n + 1 {
        return n + m + 3;
    }
    n + m + 2
}

/// Writes the place of each column.
pub fn number_places(places: &mut [usize], n: usize, m: usize)
    requires few { n + m < 2 ^ 31 }
    ensures places { (c : ℕ) → c < length places.old → slice_index_or places.new c 0
        ≡ start_place n m c }
{
    for c in 0..places.len() {
        places[c] = place_of(n, m, c);
    }
}

/// Writes the column at each place.
pub fn number_near(near: &mut [usize], n: usize, m: usize)
    requires few { n + m < 2 ^ 31 }
    ensures near { (k : ℕ) → k < length near.old → slice_index_or near.new k 0
        ≡ start_column n m k }
{
    for k in 0..near.len() {
        near[k] = column_at(n, m, k);
    }
}

/// Writes the slack column of each position.
pub fn number_slacks(basis: &mut [usize], n: usize)
    requires few { n + length basis.old < 2 ^ 31 }
    ensures slacks { (i : ℕ) → i < length basis.old → slice_index_or basis.new i 0 ≡ n + i }
{
    for i in 0..basis.len() {
        basis[i] = n + i;
    }
}
