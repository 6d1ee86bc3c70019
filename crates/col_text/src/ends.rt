// Where the texts of a column end, four bytes each as long as they fit.
ghost use Rattle.std.specs.Prelude.{◌≡◌, ◌↔◌, ◌+◌, ◌-◌, ◌%◌, ◌<◌, ◌≤◌, ◌^◌, ◌∷◌, ◌++◌, [], length, map, take, slice_index, OnOk, OnErr, IfOk, IfSome, IsTrue};
ghost use Rattle.std.specs.List.{slice_range, list_all};
ghost use Rattle.col_text.specs.Text.{moves_below};

use std::alloc::Global;
use std::marker::Model;
use sub_types::NoMemory;

/// Where the texts of a column end. Contracts see the list of ends. Each takes four bytes up to the first that is
/// 2^32 or more, and eight from there on.
#[derive(Debug, Drop)]
pub struct Ends {
    narrow: Vec<u32>,
    wide: Vec<usize>,
}

impl Model for Ends {
    ghost use Rattle.std.specs.Prelude.{ℕ, ◌++◌, List};

    ghost Value = { List ℕ };

    ghost view = { λ ends. ends.narrow.items ++ ends.wide.items };
}

impl Ends {
    /// No ends. It takes no memory.
    pub fn new(alloc: Global) -> Ends
        ensures { result ≡ [] }
    {
        Ends {
            narrow: Vec::new(alloc),
            wide: Vec::new(alloc),
        }
    }

    /// No ends, with room for so many below 2^32.
    pub fn with_capacity(alloc: Global, n: usize) -> Result<Ends, NoMemory>
        ensures { IfOk result (λ ends. ends ≡ []) }
    {
        let narrow = Vec::with_capacity(alloc, n)?;
        Ok(Ends {
            narrow,
            wide: Vec::new(alloc),
        })
    }

    /// These ends. It takes no memory.
    pub fn from_narrow(alloc: Global, ends: Vec<u32>) -> Ends
        ensures { result ≡ ends.items }
    {
        Ends {
            narrow: ends,
            wide: Vec::new(alloc),
        }
    }

    /// These ends, of eight bytes each. It takes no memory.
    pub(crate) fn from_wide(ends: Vec<usize>) -> Ends
        ensures { result ≡ ends.items }
    {
        let alloc = *ends.allocator();
        Ends {
            narrow: Vec::new(alloc),
            wide: ends,
        }
    }

    pub fn len(&self) -> usize
        ensures { result ≡ length self.now }
    {
        self.narrow.len() + self.wide.len()
    }

    pub fn is_empty(&self) -> bool
        ensures { IsTrue result ↔ (self.now ≡ []) }
    {
        self.len() == 0
    }

    pub fn get(&self, i: usize) -> usize
        requires { i < length self.now }
        ensures { result ≡ slice_index self.now i }
    {
        let narrow = self.narrow.len();
        if i < narrow {
            return self.narrow[i] as usize;
        }
        self.wide[i - narrow]
    }

    /// The ends, if each takes four bytes.
    pub fn narrow(&self) -> Option<&[u32]>
        ensures { IfSome result (λ ends. ends.now ≡ self.now) }
    {
        if !self.wide.is_empty() {
            return None;
        }
        Some(&self.narrow)
    }

    /// The last, or 0 where there is none.
    pub fn last(&self) -> usize
        ensures none { self.now ≡ [] → result ≡ 0 }
        ensures some { 0 < length self.now → result ≡ slice_index self.now (length self.now - 1) }
    {
        let count = self.len();
        if count == 0 {
            return 0;
        }
        self.get(count - 1)
    }

    /// Adds one at the end.
    pub fn push(&mut self, end: usize) -> Result<(), NoMemory>
        ensures ok { OnOk result (self.new ≡ self.old ++ end ∷ []) }
        ensures err { OnErr result (self.new ≡ self.old) }
    {
        if end >= 1 << 32 || !self.wide.is_empty() {
            self.wide.push(end)?;
            return Ok(());
        }
        self.narrow.push(end as u32)?;
        Ok(())
    }

    /// Adds those from `from` to before `to` of others, each moved by a number that wraps round.
    pub fn extend_moved(
        &mut self,
        more: &Ends,
        from: usize,
        to: usize,
        shift: usize,
    ) -> Result<(), NoMemory>
        requires rising { from ≤ to }
        requires within { to ≤ length more.now }
        ensures ok { OnOk result (self.new ≡ self.old ++ map (λ end. (end + shift) % 2 ^ 64) (slice_range more.now from to)) }
        ensures err { OnErr result (self.new ≡ self.old) }
    {
        if self.wide.is_empty() && to <= more.narrow.len() {
            let part = &more.narrow[from..to];
            if stay_narrow(part, shift) {
                return extend_narrow(&mut self.narrow, part, (shift % (1 << 32)) as u32);
            }
        }
        self.extend_each(more, from, to, shift)
    }

    // The same, one by one.
    fn extend_each(
        &mut self,
        more: &Ends,
        from: usize,
        to: usize,
        shift: usize,
    ) -> Result<(), NoMemory>
        requires rising { from ≤ to }
        requires within { to ≤ length more.now }
        ensures ok { OnOk result (self.new ≡ self.old ++ map (λ end. (end + shift) % 2 ^ 64) (slice_range more.now from to)) }
        ensures err { OnErr result (self.new ≡ self.old) }
    {
        let count = self.len();
        for i in from..to {
            if let Err(NoMemory) = self.push(more.get(i).wrapping_add(shift)) {
                self.truncate(count);
                return Err(NoMemory);
            }
        }
        Ok(())
    }

    /// Keeps the first `n`, or all where there are fewer.
    pub fn truncate(&mut self, n: usize)
        ensures { self.new ≡ take n self.old }
    {
        let narrow = self.narrow.len();
        if n < narrow {
            self.narrow.truncate(n);
            self.wide.truncate(0);
            return;
        }
        self.wide.truncate(n - narrow);
    }
}

// Whether each is below 2^32 once it is moved by a number that wraps round.
fn stay_narrow(ends: &[u32], shift: usize) -> bool
    ensures { result ≡ list_all (moves_below shift) ends.now }
{
    let mut is_wide = false;
    for end in ends {
        is_wide = is_wide | ((*end as usize).wrapping_add(shift) >= 1 << 32);
    }
    !is_wide
}

// Adds these numbers, each moved by a number that wraps round.
fn extend_narrow(ends: &mut Vec<u32>, more: &[u32], shift: u32) -> Result<(), NoMemory>
    ensures ok { OnOk result (ends.new.items ≡ ends.old.items ++ map (λ end. (end + shift) % 2 ^ 32) more.now) }
    ensures err { OnErr result (ends.new.items ≡ ends.old.items) }
{
    let count = ends.len();
    if ends
        .extend(more.iter().map(|end| end.wrapping_add(shift)))
        .is_err()
    {
        ends.truncate(count);
        return Err(NoMemory);
    }
    Ok(())
}
