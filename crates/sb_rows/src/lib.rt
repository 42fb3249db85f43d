//! Rows by rising keys, as contracts see them: a finite map. The crates that keep a table of blocks in a vector stand on
//! it.
#![tactic(auto)]

ghost use Rattle.std.specs.Prelude.{◌≡◌, IfOk, IfErr, IsTrue};
ghost use Rattle.std.specs.Ordering.{nat_cmp};
ghost use Rattle.std.specs.FinMap.{is_sorted};
ghost use Rattle.sb_rows.specs.Rows.{IsRowOf, IsGapFor};

/// The place of a key's row, or the place where it would stand. The keys rise.
pub fn place_of<T>(rows: &[(u32, T)], key: u32) -> Result<usize, usize>
    requires { IsTrue (is_sorted nat_cmp rows.now) }
    ensures found { IfOk result (IsRowOf rows.now key) }
    ensures absent { IfErr result (IsGapFor rows.now key) }
{
    rows.binary_search_by_key(&key, |row| row.0)
}
