// Refs by their names, and the lines that give them.
ghost use Rattle.std.specs.Prelude.{◌≡◌, ◌<◌, ◌^◌, ◌++◌, ◌∷◌, [], None, Ok, length, false, IfOk, IfErr, OnOk, OnErr};
ghost use Rattle.std.specs.Io.{StartsWith};
ghost use Rattle.std.specs.List.{filter_map};
ghost use Rattle.text_model.specs.Lists.{in_order};
ghost use Rattle.text_model.specs.Text.{whole_lines};
ghost use Rattle.state_model.specs.Text.{refs_text};
ghost use Rattle.state_model.specs.Names.{is_name_below};
ghost use Rattle.name_model.specs.Reading.{row_in, first_refused, rows_of, set_of, names_text};
ghost use Rattle.ref_map.specs.Faults.{IsNameFault};
ghost use Rattle.ref_map.specs.Rows.{reader, has_name, row_fault, IsRowFault, IsTaken};

use crate::fault::{LineFault, NameFault};
use crate::lookup::Lookup;
use crate::put::{put_line, put_ref};
use crate::row::{Row, Side, line_of, row_at};
use bridge_text::{Id, NAME_LIMIT, NoMemory, first_line};
use indexmap::IndexMap;
use std::alloc::Global;
use std::marker::Model;

/// Refs, of which no two have one name. Contracts see the list.
pub struct Rows {
    ids: IndexMap<Vec<u8>, Id>,
}

impl Drop for Rows {
    fn drop(self) {
        let Rows { ids: _ } = self;
    }
}

impl Model for Rows {
    ghost use Rattle.std.specs.Prelude.{List, map};
    ghost use Rattle.state_model.specs.Kept.{NameRow};
    ghost use Rattle.ref_map.specs.Entries.{entry_row};

    ghost Value = { List NameRow };

    ghost view = { λ rows. map entry_row rows.ids.entries };
}

impl Rows {
    /// No refs.
    pub fn new(alloc: Global) -> Rows
        ensures { result ≡ [] }
    {
        Rows {
            ids: IndexMap::new(alloc),
        }
    }

    /// How many there are.
    pub fn len(&self) -> usize
        ensures len { result ≡ length self.now }
        ensures small { result < 2 ^ 63 }
    {
        self.ids.len()
    }

    /// Whether one of them has the name.
    pub fn has(&self, name: &[u8]) -> bool
        ensures { result ≡ has_name self.now name.now }
    {
        self.ids.contains_key(name)
    }

    /// Puts a ref at the end, whose name none of them has. After want of memory they are as they were.
    pub fn push(&mut self, row: Row) -> Result<(), NoMemory>
        requires { has_name self.old row.name.items ≡ false }
        ensures ok { OnOk result (self.new ≡ self.old ++ (record { id = row.id; name = row.name.items }) ∷ []) }
        ensures err { OnErr result (self.new ≡ self.old) }
    {
        self.ids.insert(row.name, row.id)?;
        Ok(())
    }

    /// Puts them in the order of their names.
    pub fn sort(&mut self) -> Result<(), NoMemory>
        ensures ok { OnOk result (self.new ≡ in_order is_name_below self.old) }
    {
        self.ids
            .sort_by(|a, _, b, _| a.as_slice().cmp(b.as_slice()))?;
        Ok(())
    }

    /// Appends the line of each as Git's side has it. After want of memory what `out` was is its beginning.
    pub fn put_refs(&self, out: &mut Vec<u8>) -> Result<(), NoMemory>
        ensures ok { OnOk result (out.new.items ≡ out.old.items ++ refs_text self.now) }
        ensures front { StartsWith out.new.items out.old.items }
    {
        for (name, id) in self.ids.iter() {
            put_ref(out, id, name)?;
        }
        Ok(())
    }

    /// Appends the line of each as Mercurial's side has it. After want of memory what `out` was is its beginning.
    pub fn put_names<K: Lookup>(&self, known: &K, out: &mut Vec<u8>) -> Result<(), NoMemory>
        ensures ok { OnOk result (out.new.items ≡ out.old.items ++ names_text (K.targets known.now) self.now) }
        ensures front { StartsWith out.new.items out.old.items }
    {
        for (name, id) in self.ids.iter() {
            put_line(out, &line_of(known, *id, name))?;
        }
        Ok(())
    }

    /// Takes the ref that a line gives, unless it is refused.
    fn take<K: Lookup>(
        &mut self,
        alloc: Global,
        known: &K,
        side: Side,
        line: &[u8],
    ) -> Result<(), LineFault>
        ensures ok { OnOk result (IsTaken self.old self.new (reader side (K.targets known.now) line.now)) }
        ensures fault { IfErr result (IsRowFault (row_fault self.old (reader side (K.targets known.now) line.now))) }
    {
        if self.len() >= NAME_LIMIT {
            return Err(LineFault::NameLimit);
        }
        let row = row_at(alloc, known, side, line)?;
        if self.has(&row.name) {
            return Err(LineFault::NameTwice);
        }
        self.push(row)?;
        Ok(())
    }

    /// The refs that a text sets, in the order of its lines. The fault is that of the first line that is refused.
    pub fn of_text<K: Lookup>(
        alloc: Global,
        known: &K,
        side: Side,
        text: &[u8],
    ) -> Result<Rows, NameFault>
        ensures none { OnOk result (first_refused (reader side (K.targets known.now)) [] (whole_lines text.now) ≡ None) }
        ensures rows { IfOk result (λ rows. rows ≡ rows_of (reader side (K.targets known.now)) (whole_lines text.now)) }
        ensures fault { IfErr result (IsNameFault (set_of (reader side (K.targets known.now)) text.now)) }
    {
        let mut rows = Rows::new(alloc);
        let mut rest = text;
        while !rest.is_empty() {
            let (line, after) = first_line(rest);
            let before = rows.len() as u64;
            if let Err(fault) = rows.take(alloc, known, side, line) {
                return Err(fault.at(before + 1));
            }
            rest = after;
        }
        Ok(rows)
    }
}
