//! A table of the document, and the values at its keys.
ghost use Rattle.std.specs.Prelude.{◌≡◌, ◌++◌, map, option_map, string_bytes};
ghost use Rattle.std.specs.List.{list_any};
ghost use Rattle.std.specs.Str.{bytes_eq};
ghost use Rattle.std.specs.Result.{IfOk};
ghost use Rattle.toml.specs.Data.{as_str, as_table, get_member};
ghost use Rattle.toml.specs.View.{view, table_view};
ghost use Rattle.ck_base.specs.declared.settings_faults.SettingsKind.TheVariants.{WrongType};
ghost use Rattle.ck_settings.specs.Places.{prefix_of};
ghost use Rattle.ck_settings.specs.Faults.{element_key, element_prefix, is_class, is_outside_name, is_some_text};
ghost use Rattle.ck_settings.specs.Documents.{Gives, IsFault};
ghost use Rattle.ck_settings.specs.Reading.{
  list,
  needed,
  number,
  number_or,
  number_read,
  only,
  or_fault,
  text_where,
  truth,
};

use crate::classes::op_for;
use crate::errors::ReadSettingsError;
use ck_base::{OutOfMemory, SettingsFault, SettingsKind, is_kernel_name};
use std::alloc::Global;
use toml::{Table, Value};

/// Where a table is: it is the document, or an element of the list of this key, by its number from 1.
#[derive(Clone, Copy)]
pub enum Place {
    Document,
    Element(&'static str, usize),
}

/// A table of the document, and where it is.
#[derive(Clone, Copy)]
pub struct Section<'a> {
    pub alloc: Global,
    pub place: Place,
    pub table: &'a Table,
}

/// The table that an element of the list of a key is, by its number from 1.
pub fn element_of<'a>(
    alloc: Global,
    list: &'static str,
    number: usize,
    element: &'a Value,
) -> Result<Section<'a>, ReadSettingsError>
    ensures table { Gives (λ s. table_view s.table.now) result
        (or_fault (element_key list.now number) WrongType (as_table (view element.now))) }
    ensures place { IfOk result (λ s. prefix_of s.place ≡ element_prefix list.now number) }
{
    let Some(table) = element.as_table() else {
        let key = format!(in alloc; "{list}[{number}]")?;
        let kind = SettingsKind::WrongType;
        return Err(ReadSettingsError::Fault(SettingsFault { key, kind }));
    };
    let place = Place::Element(list, number);
    Ok(Section {
        alloc,
        place,
        table,
    })
}

/// Whether a key is one of these.
fn is_known(keys: &[&'static str], key: &str) -> bool
    ensures { result ≡ list_any (λ k. bytes_eq k.now key.now) keys.now }
{
    keys.iter().any(|known| *known == key)
}

impl<'a> Section<'a> {
    /// A key of the table, as a fault tells it.
    fn spelled(&self, key: &str) -> Result<String, OutOfMemory>
        ensures { IfOk result (λ s. string_bytes s ≡ prefix_of self.now.place ++ key.now) }
    {
        match self.place {
            Place::Document => Ok(String::from_str(self.alloc, key)?),
            Place::Element(list, number) => Ok(format!(in self.alloc; "{list}[{number}].{key}")?),
        }
    }

    /// A fault at a key of the table.
    pub fn fault(&self, key: &str, kind: SettingsKind) -> ReadSettingsError
        ensures { IsFault result (record { key = prefix_of self.now.place ++ key.now; kind = kind }) }
    {
        match self.spelled(key) {
            Ok(key) => ReadSettingsError::Fault(SettingsFault { key, kind }),
            Err(OutOfMemory) => ReadSettingsError::Memory,
        }
    }

    /// Nothing, where the table has no keys but these. Else the first of the others in byte order is
    /// unknown.
    pub fn only(&self, keys: &[&'static str]) -> Result<(), ReadSettingsError>
        ensures { Gives (λ nothing. nothing) result
            (only (prefix_of self.now.place) (map (λ k. k.now) keys.now) (table_view self.now.table.now)) }
    {
        'members: for key in self.table.keys() {
            if !is_known(keys, key) {
                return Err(self.fault(key, SettingsKind::Unknown));
            }
        }
        Ok(())
    }

    /// The value at a key, if it is there.
    fn get(&self, key: &str) -> Option<&'a Value>
        ensures { option_map (λ v. view v.now) result ≡ get_member key.now (table_view self.now.table.now) }
    {
        self.table.get(key)
    }

    /// The value at a key that has to be there.
    fn needed(&self, key: &str) -> Result<&'a Value, ReadSettingsError>
        ensures { Gives (λ v. view v.now) result
            (needed (prefix_of self.now.place) key.now (table_view self.now.table.now)) }
    {
        match self.get(key) {
            Some(value) => Ok(value),
            None => Err(self.fault(key, SettingsKind::Missing)),
        }
    }

    /// The number that the value at a key is, from `least` to `most`.
    #[tactic(auto, unfolding(crate::specs::Reading::number_read))]
    fn number_read(
        &self,
        key: &str,
        least: u8,
        most: u8,
        value: &Value,
    ) -> Result<u8, ReadSettingsError>
        ensures { Gives (λ n. n) result
            (number_read (prefix_of self.now.place ++ key.now) least most (view value.now)) }
    {
        let Some(number) = value.as_integer() else {
            return Err(self.fault(key, SettingsKind::WrongType));
        };
        match u8::try_from(number) {
            Ok(number) if least <= number && number <= most => Ok(number),
            _ => Err(self.fault(key, SettingsKind::OutOfRange)),
        }
    }

    /// The number at a key that has to be there, from `least` to `most`.
    #[tactic(auto, unfolding(crate::specs::Reading::number))]
    pub fn number(&self, key: &str, least: u8, most: u8) -> Result<u8, ReadSettingsError>
        ensures { Gives (λ n. n) result
            (number (prefix_of self.now.place) least most key.now (table_view self.now.table.now)) }
    {
        let value = self.needed(key)?;
        self.number_read(key, least, most, value)
    }

    /// The number at a key, from `least` to `most`, or the default where the key isn't there.
    pub fn number_or(
        &self,
        key: &str,
        least: u8,
        most: u8,
        default: u8,
    ) -> Result<u8, ReadSettingsError>
        ensures { Gives (λ n. n) result
            (number_or (prefix_of self.now.place) least most default key.now (table_view self.now.table.now)) }
    {
        match self.get(key) {
            Some(value) => self.number_read(key, least, most, value),
            None => Ok(default),
        }
    }

    /// The text that the value at a key is.
    fn text_read(&self, key: &str, value: &'a Value) -> Result<&'a str, ReadSettingsError>
        ensures { Gives (λ s. s.now) result
            (or_fault (prefix_of self.now.place ++ key.now) WrongType (as_str (view value.now))) }
    {
        match value.as_str() {
            Some(text) => Ok(text),
            None => Err(self.fault(key, SettingsKind::WrongType)),
        }
    }

    /// The text at a key that has to be there, which isn't empty.
    #[tactic(auto, unfolding(crate::specs::Reading::text_where))]
    pub fn text(&self, key: &str) -> Result<&'a str, ReadSettingsError>
        ensures { Gives (λ s. s.now) result
            (text_where is_some_text (prefix_of self.now.place) key.now (table_view self.now.table.now)) }
    {
        let value = self.needed(key)?;
        let text = self.text_read(key, value)?;
        if text.is_empty() {
            return Err(self.fault(key, SettingsKind::OutOfRange));
        }
        Ok(text)
    }

    /// The name at a key that has to be there, which isn't empty and is none of the kernel's.
    #[tactic(auto, unfolding(crate::specs::Reading::text_where))]
    pub fn outside_name(&self, key: &str) -> Result<&'a str, ReadSettingsError>
        ensures { Gives (λ s. s.now) result
            (text_where is_outside_name (prefix_of self.now.place) key.now (table_view self.now.table.now)) }
    {
        let value = self.needed(key)?;
        let name = self.text_read(key, value)?;
        if name.is_empty() || is_kernel_name(name) {
            return Err(self.fault(key, SettingsKind::OutOfRange));
        }
        Ok(name)
    }

    /// The word of a class at a key that has to be there.
    #[tactic(auto, unfolding(crate::specs::Reading::text_where))]
    pub fn class(&self, key: &str) -> Result<&'a str, ReadSettingsError>
        ensures { Gives (λ s. s.now) result
            (text_where is_class (prefix_of self.now.place) key.now (table_view self.now.table.now)) }
    {
        let value = self.needed(key)?;
        let class = self.text_read(key, value)?;
        if op_for(class, false).is_none() {
            return Err(self.fault(key, SettingsKind::OutOfRange));
        }
        Ok(class)
    }

    /// The truth value at a key, or false where the key isn't there.
    pub fn truth(&self, key: &str) -> Result<bool, ReadSettingsError>
        ensures { Gives (λ b. b) result (truth (prefix_of self.now.place) key.now (table_view self.now.table.now)) }
    {
        let Some(value) = self.get(key) else {
            return Ok(false);
        };
        match value.as_bool() {
            Some(truth) => Ok(truth),
            None => Err(self.fault(key, SettingsKind::WrongType)),
        }
    }

    /// The elements of the list at a key, none where the key isn't there.
    #[tactic(auto, using(crate::proofs::Elements::data_of_items))]
    pub fn list(&self, key: &str) -> Result<&'a [Value], ReadSettingsError>
        ensures { Gives (λ vs. map view vs.now) result
            (list (prefix_of self.now.place) key.now (table_view self.now.table.now)) }
    {
        let Some(value) = self.get(key) else {
            return Ok(&[]);
        };
        match value.as_array() {
            Some(elements) => Ok(elements.as_slice()),
            None => Err(self.fault(key, SettingsKind::WrongType)),
        }
    }
}
