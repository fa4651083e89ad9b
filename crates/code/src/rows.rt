ghost use Rattle.std.specs.Prelude.{◌≡◌, ℕ, ◌-◌, ◌<◌, ◌≤◌, List, [], ◌∷◌, ◌++◌, length, take, drop, replicate, refl};
ghost use Rattle.code.specs.RowTables.{table_back, table_count};

use std::marker::Model;

// Up to N rows, one after the other: an array and a count, since the library uses no heap. Entries of the table that hold no row are 0, so equal lists of rows are equal in every field.
#[derive(Clone, Copy, PartialEq, Eq, Debug)]
pub struct Rows<const N: usize> {
    table: [u64; N],
    count: usize,
}

impl<const N: usize> Model for Rows<N> {
    ghost Value = { List ℕ };

    ghost view = { λ r. take r.count r.table };

    ghost invariant = { λ r. (length r.table ≡ N) × (r.count ≤ N) × (drop r.count r.table ≡ replicate (N - r.count) 0) };

    ghost inverse = { λ xs. record { table = xs ++ replicate (N - length xs) 0; count = length xs } };

    ghost inverse_ok = { λ a h. rw (table_back N a.count a.table h.0 h.1 h.2, table_count N a.count a.table h.0 h.1) refl };
}

impl<const N: usize> Rows<N> {
    // No rows.
    pub fn new() -> Rows<N>
        ensures { result ≡ [] }
    {
        Rows {
            table: [0; N],
            count: 0,
        }
    }

    // The rows.
    pub fn as_slice(&self) -> &[u64]
        ensures value { result.now ≡ self.now }
        ensures few { length result.now ≤ N }
    {
        let table = &self.table[..];
        &table[0..self.count]
    }

    // One row more, after the others; where there are N already, the rows stay as they are.
    pub fn push(&mut self, row: u64)
        ensures room { length self.old < N → self.new ≡ self.old ++ row ∷ [] }
        ensures full { length self.old ≡ N → self.new ≡ self.old }
    {
        self.put_last(row);
    }

    // The public call needs no proof file so, and a must-fail edit in it is refused by a fact.
    fn put_last(&mut self, row: u64)
        ensures room { length self.old < N → self.new ≡ self.old ++ row ∷ [] }
        ensures full { length self.old ≡ N → self.new ≡ self.old }
    {
        if self.count < N {
            self.table[self.count] = row;
            self.count += 1;
        }
    }

    // The first N of the rows, or all where there are fewer.
    pub fn first_of(rows: &[u64]) -> Rows<N>
        ensures { result ≡ take N rows.now }
    {
        let mut table = [0; N];
        let count = rows.len().min(N);
        let all = &mut table[..];
        all[0..count].copy_from_slice(&rows[0..count]);
        Rows { table, count }
    }
}
