// The keys of groups.
ghost use Rattle.std.specs.Prelude.{◌≡◌, ◌<◌, ◌∷◌, ◌++◌, [], Some, true, false, map, not, length, All, IfOk, OnOk, slice_get, slice_index_or, if◌then◌else◌};
ghost use Rattle.std.specs.List.{list_any, range_with_len};
ghost use Rattle.plan_denote.specs.Distinct.{is_same_row};
ghost use Rattle.group_keys.specs.Keys.{with_item, is_same_bytes};
ghost use Rattle.row_keys.specs.Keys.{key_of};
ghost use Rattle.row_keys.specs.KeyBytes.{bytes_of_key};
ghost use Rattle.group_numbers.specs.Keys.{IsKept, AreAt, with_keys, keys_at};

use crate::numbers::{batch_of_numbers, number_column};
use crate::twins::twins_of;
use batch::Batch;
use group_keys::group_of_bytes;
use indexmap::IndexSet;
use plan_leaves::{CopyIn, Items};
use row_keys::write_key;
use std::alloc::Global;
use sub_types::{NoMemory, Value};

/// The keys of groups by their numbers, from 0 in the order in which the keys first appear. Contracts see them by `rows`, of which
/// `IsKept` says that each is there once. As long as each key is one whole number or null it is found by that, and after that by its
/// bytes.
#[derive(Drop)]
pub struct GroupKeys {
    pub(crate) by_number: bool,
    pub(crate) whole: IndexSet<Option<i64>>,
    pub(crate) set: IndexSet<Vec<u8>>,
    pub(crate) rows: Items<Items<Value>>,
}

/// Where a key stands.
#[derive(Clone, Copy)]
pub(crate) struct Place {
    pub(crate) number: usize,
    pub(crate) is_new: bool,
}

fn place_of(alloc: Global, set: &mut IndexSet<Vec<u8>>, bytes: &[u8]) -> Result<Place, NoMemory>
    ensures keys { OnOk result (map (λ k. k.items) set.new.keys ≡ with_item is_same_bytes (map (λ k. k.items) set.old.keys) bytes.now) }
    ensures number { IfOk result (λ place. slice_get (map (λ k. k.items) set.new.keys) place.number ≡ Some bytes.now) }
    ensures is_new { IfOk result (λ place. place.is_new ≡ not (list_any (is_same_bytes bytes.now) (map (λ k. k.items) set.old.keys))) }
{
    let before = set.len();
    let number = group_of_bytes(alloc, set, bytes)?;
    let is_new = before < set.len();
    Ok(Place { number, is_new })
}

fn key_at(alloc: Global, batch: &Batch, columns: &[u32], row: u64) -> Result<Items<Value>, NoMemory>
    requires row { row < batch.now.rows }
    requires columns { All (λ column. column < length batch.now.columns.items) columns.now }
    ensures { IfOk result (λ key. key ≡ key_of columns.now batch.now row) }
{
    let mut key = Items::new(alloc);
    for column in columns {
        key.push(batch.value_at(alloc, *column as usize, row)?)?;
    }
    Ok(key)
}

fn push_if(
    alloc: Global,
    rows: &mut Items<Items<Value>>,
    is_new: bool,
    batch: &Batch,
    columns: &[u32],
    row: u64,
) -> Result<(), NoMemory>
    requires row { row < batch.now.rows }
    requires columns { All (λ column. column < length batch.now.columns.items) columns.now }
    ensures { OnOk result (rows.new ≡ if is_new then rows.old ++ key_of columns.now batch.now row ∷ [] else rows.old) }
{
    if is_new {
        rows.push(key_at(alloc, batch, columns, row)?)?;
    }
    Ok(())
}

fn push_copy_if(
    alloc: Global,
    rows: &mut Items<Items<Value>>,
    is_new: bool,
    key: &Items<Value>,
) -> Result<(), NoMemory>
    ensures { OnOk result (rows.new ≡ if is_new then rows.old ++ key.now ∷ [] else rows.old) }
{
    if is_new {
        rows.push(key.copy_in(alloc)?)?;
    }
    Ok(())
}

impl GroupKeys {
    /// No keys.
    pub fn new(alloc: Global) -> GroupKeys
        ensures kept { IsKept result }
        ensures rows { result.rows ≡ [] }
    {
        GroupKeys {
            by_number: true,
            whole: IndexSet::new(alloc),
            set: IndexSet::new(alloc),
            rows: Items::new(alloc),
        }
    }

    // No keys, and those to come are found by their bytes.
    fn by_bytes(alloc: Global) -> GroupKeys
        ensures kept { IsKept result }
        ensures mode { result.by_number ≡ false }
        ensures rows { result.rows ≡ [] }
    {
        GroupKeys {
            by_number: false,
            whole: IndexSet::new(alloc),
            set: IndexSet::new(alloc),
            rows: Items::new(alloc),
        }
    }

    /// The key of no values alone.
    pub fn of_no_values(alloc: Global) -> Result<GroupKeys, NoMemory>
        ensures kept { IfOk result (λ keys. IsKept keys) }
        ensures rows { IfOk result (λ keys. keys.rows ≡ [] ∷ []) }
    {
        let mut keys = GroupKeys::by_bytes(alloc);
        let place = place_of(alloc, &mut keys.set, &[])?;
        push_copy_if(alloc, &mut keys.rows, place.is_new, &Items::new(alloc))?;
        Ok(keys)
    }

    /// How many groups there are.
    pub fn len(&self) -> usize
        ensures { result ≡ length self.now.rows }
    {
        self.rows.len()
    }

    /// The keys of the groups in the order of their numbers.
    pub fn rows(&self) -> &[Items<Value>]
        ensures { result.now ≡ self.now.rows }
    {
        self.rows.as_slice()
    }

    fn number_of(
        &mut self,
        alloc: Global,
        batch: &Batch,
        columns: &[u32],
        row: u64,
        buffer: &mut Vec<u8>,
    ) -> Result<usize, NoMemory>
        requires kept { IsKept self.old }
        requires mode { self.old.by_number ≡ false }
        requires row { row < batch.now.rows }
        requires columns { All (λ column. column < length batch.now.columns.items) columns.now }
        ensures kept { OnOk result (IsKept self.new) }
        ensures mode { OnOk result (self.new.by_number ≡ false) }
        ensures rows { OnOk result (self.new.rows ≡ with_item is_same_row self.old.rows (key_of columns.now batch.now row)) }
        ensures number { IfOk result (λ number. slice_get self.new.rows number ≡ Some (key_of columns.now batch.now row)) }
    {
        write_key(buffer, batch, columns, row)?;
        let place = place_of(alloc, &mut self.set, buffer.as_slice())?;
        push_if(alloc, &mut self.rows, place.is_new, batch, columns, row)?;
        Ok(place.number)
    }

    /// The number of a row's group, behind those of the rows before it: that of a row with the same key, where there is one.
    fn number_by_twin(
        &mut self,
        alloc: Global,
        batch: &Batch,
        columns: &[u32],
        row: u64,
        twin: u64,
        numbers: &[usize],
        buffer: &mut Vec<u8>,
    ) -> Result<usize, NoMemory>
        requires kept { IsKept self.old }
        requires mode { self.old.by_number ≡ false }
        requires row { row < batch.now.rows }
        requires columns { All (λ column. column < length batch.now.columns.items) columns.now }
        requires same { key_of columns.now batch.now twin ≡ key_of columns.now batch.now row }
        requires numbers { AreAt self.old.rows numbers.now (map (key_of columns.now batch.now) (range_with_len 0 row)) }
        ensures kept { OnOk result (IsKept self.new) }
        ensures mode { OnOk result (self.new.by_number ≡ false) }
        ensures rows { OnOk result (self.new.rows ≡ with_item is_same_row self.old.rows (key_of columns.now batch.now row)) }
        ensures number { IfOk result (λ number. slice_get self.new.rows number ≡ Some (key_of columns.now batch.now row)) }
    {
        if twin < row {
            return Ok(numbers[twin as usize]);
        }
        self.number_of(alloc, batch, columns, row, buffer)
    }

    /// The numbers of the groups of a batch's rows, by the values of these columns. A key that is new makes a group.
    pub fn numbers_of(
        &mut self,
        alloc: Global,
        batch: &Batch,
        columns: &[u32],
    ) -> Result<Vec<usize>, NoMemory>
        requires kept { IsKept self.old }
        requires columns { All (λ column. column < length batch.now.columns.items) columns.now }
        ensures kept { OnOk result (IsKept self.new) }
        ensures rows { OnOk result (self.new.rows ≡ with_keys self.old.rows (keys_at columns.now batch.now)) }
        ensures numbers { IfOk result (λ numbers. AreAt self.new.rows numbers.items (keys_at columns.now batch.now)) }
    {
        if let Some(column) = number_column(self.by_number, batch, columns) {
            return self.numbers_by_number(alloc, column, batch.rows);
        }
        self.keep_by_bytes(alloc)?;
        self.numbers_by_bytes(alloc, batch, columns)
    }

    fn numbers_by_bytes(
        &mut self,
        alloc: Global,
        batch: &Batch,
        columns: &[u32],
    ) -> Result<Vec<usize>, NoMemory>
        requires kept { IsKept self.old }
        requires mode { self.old.by_number ≡ false }
        requires columns { All (λ column. column < length batch.now.columns.items) columns.now }
        ensures kept { OnOk result (IsKept self.new) }
        ensures mode { OnOk result (self.new.by_number ≡ false) }
        ensures rows { OnOk result (self.new.rows ≡ with_keys self.old.rows (keys_at columns.now batch.now)) }
        ensures numbers { IfOk result (λ numbers. AreAt self.new.rows numbers.items (keys_at columns.now batch.now)) }
    {
        let twins = twins_of(alloc, batch, columns)?;
        let mut numbers = Vec::with_capacity(alloc, batch.rows as usize)?;
        let mut buffer = Vec::new(alloc);
        for row in 0..batch.rows {
            let twin = twins[row as usize];
            let before = numbers.as_slice();
            let number = self.number_by_twin(
                alloc,
                batch,
                columns,
                row,
                twin,
                before,
                &mut buffer,
            )?;
            numbers.push(number)?;
        }
        Ok(numbers)
    }

    // The keys are found by their bytes from here on.
    fn keep_by_bytes(&mut self, alloc: Global) -> Result<(), NoMemory>
        requires kept { IsKept self.old }
        ensures kept { OnOk result (IsKept self.new) }
        ensures mode { OnOk result (self.new.by_number ≡ false) }
        ensures rows { OnOk result (self.new.rows ≡ self.old.rows) }
    {
        if self.by_number {
            *self = self.moved(alloc)?;
        }
        Ok(())
    }

    // The same keys, found by their bytes.
    fn moved(&self, alloc: Global) -> Result<GroupKeys, NoMemory>
        requires kept { IsKept self.now }
        requires mode { self.now.by_number ≡ true }
        ensures kept { IfOk result (λ keys. IsKept keys) }
        ensures mode { IfOk result (λ keys. keys.by_number ≡ false) }
        ensures rows { IfOk result (λ keys. keys.rows ≡ self.now.rows) }
    {
        let mut keys = GroupKeys::by_bytes(alloc);
        let batch = batch_of_numbers(alloc, self.whole.as_slice())?;
        keys.numbers_by_bytes(alloc, &batch, &[0])?;
        Ok(keys)
    }

    fn number_from(
        &mut self,
        alloc: Global,
        later: &GroupKeys,
        from: usize,
    ) -> Result<usize, NoMemory>
        requires kept { IsKept self.old }
        requires mode { self.old.by_number ≡ false }
        requires later { IsKept later.now }
        requires later_mode { later.now.by_number ≡ false }
        requires from { from < length later.now.rows }
        ensures kept { OnOk result (IsKept self.new) }
        ensures mode { OnOk result (self.new.by_number ≡ false) }
        ensures rows { OnOk result (self.new.rows ≡ with_item is_same_row self.old.rows (slice_index_or later.now.rows from [])) }
        ensures number { IfOk result (λ number. slice_get self.new.rows number ≡ Some (slice_index_or later.now.rows from [])) }
    {
        let place = place_of(alloc, &mut self.set, later.bytes_at(from))?;
        push_copy_if(
            alloc,
            &mut self.rows,
            place.is_new,
            &later.rows.as_slice()[from],
        )?;
        Ok(place.number)
    }

    fn bytes_at(&self, number: usize) -> &[u8]
        requires kept { IsKept self.now }
        requires mode { self.now.by_number ≡ false }
        requires number { number < length self.now.rows }
        ensures { result.now ≡ bytes_of_key (slice_index_or self.now.rows number []) }
    {
        match self.set.get_index(number) {
            Some(bytes) => bytes.as_slice(),
            None => unreachable!(),
        }
    }

    /// The numbers of the groups of later keys, in their order. A key that is new makes a group.
    pub fn numbers_from(&mut self, alloc: Global, later: &GroupKeys) -> Result<Vec<usize>, NoMemory>
        requires kept { IsKept self.old }
        requires later { IsKept later.now }
        ensures kept { OnOk result (IsKept self.new) }
        ensures rows { OnOk result (self.new.rows ≡ with_keys self.old.rows later.now.rows) }
        ensures numbers { IfOk result (λ numbers. AreAt self.new.rows numbers.items later.now.rows) }
    {
        if later.by_number {
            let batch = batch_of_numbers(alloc, later.whole.as_slice())?;
            return self.numbers_of(alloc, &batch, &[0]);
        }
        self.keep_by_bytes(alloc)?;
        self.numbers_from_bytes(alloc, later)
    }

    fn numbers_from_bytes(
        &mut self,
        alloc: Global,
        later: &GroupKeys,
    ) -> Result<Vec<usize>, NoMemory>
        requires kept { IsKept self.old }
        requires mode { self.old.by_number ≡ false }
        requires later { IsKept later.now }
        requires later_mode { later.now.by_number ≡ false }
        ensures kept { OnOk result (IsKept self.new) }
        ensures rows { OnOk result (self.new.rows ≡ with_keys self.old.rows later.now.rows) }
        ensures numbers { IfOk result (λ numbers. AreAt self.new.rows numbers.items later.now.rows) }
    {
        let mut numbers = Vec::new(alloc);
        for from in 0..later.rows.len() {
            let number = self.number_from(alloc, later, from)?;
            numbers.push(number)?;
        }
        Ok(numbers)
    }
}
