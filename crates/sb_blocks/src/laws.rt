//! The laws of a cache. Each function does nothing; its contract is the law.

ghost use Rattle.sb_blocks.specs.Laws.{
  SetsOne,
  RemovesOne,
  CountsHeld,
  CountsPassing,
  FreeForEach,
  CountsEach,
  VictimIsLightest,
};

/// Where a block's entry is set, the block has it, and every other block has what it had.
pub fn sets_one()
    ensures { SetsOne }
{}

/// Where a block's entry is removed, the block has none, and every other block has what it had.
pub fn removes_one()
    ensures { RemovesOne }
{}

/// How many blocks have an entry after each change.
pub fn counts_held()
    ensures { CountsHeld }
{}

/// How many entries pass a test after each change, as that of being dirty.
pub fn counts_passing()
    ensures { CountsPassing }
{}

/// A cache with an entry for each block has a free one for a block without an entry.
pub fn free_for_each()
    ensures { FreeForEach }
{}

/// To count the entries that pass a test is to count the blocks whose entry does.
pub fn counts_each()
    ensures { CountsEach }
{}

/// The victim is what a search through all blocks finds: the clean one of least use, the lowest at a tie.
pub fn victim_is_lightest()
    ensures { VictimIsLightest }
{}
