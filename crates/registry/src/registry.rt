//! The registry.
ghost use Rattle.std.specs.Prelude.{◌≡◌, ◌≤◌, ◌==◌, length};
ghost use Rattle.std.specs.List.{list_all};
ghost use Rattle.sorted_rows.specs.Rows.{AreRows, IsPlace, with_row, without_row};
ghost use Rattle.registry.specs.Values.{IsPresent, place_of_value, is_default};

use crate::value::{RegValue, SESSION_IDENTITY, place};
use arrayvec::ArrayVec;
use std::alloc::AllocError;
use std::marker::Model;

/// The most values that are kept: two for each of seven hosts. This project's own.
pub const MOST_VALUES: usize = 14;

/// What a node keeps of the hosts' registries: SESSION_IDENTITY and WHITELIST of each host's administration gate (ETSI TS 102 622,
/// sections 4.5 and 7.1). A value equal to its default is absent. Contracts see the list of the values that are present, in the order
/// of hosts and parameters.
#[derive(Debug, Drop, PartialEq, Eq)]
pub struct Registry {
    values: ArrayVec<RegValue, 14>,
}

impl Model for Registry {
    ghost use Rattle.std.specs.Prelude.{List};
    ghost use Rattle.registry.specs.declared.value.RegValue.{RegValue};
    ghost use Rattle.registry.specs.Values.{AreValues};

    ghost Value = { List RegValue };

    ghost view = { λ r. r.values.items };

    ghost invariant = { λ r. AreValues r.values.items };

    ghost inverse = { λ values. record { values = record { items = values } } };
}

impl Registry {
    ghost use Rattle.std.specs.Prelude.{◌≡◌, ◌≤◌, [], IsTrue, length};
    ghost use Rattle.std.specs.Option.{option_copied};
    ghost use Rattle.sorted_rows.specs.Rows.{row_of, with_row};
    ghost use Rattle.registry.specs.Values.{AreValues, IsPresent, place_of_value, is_kept, value_at, with_value, values_without_host};

    /// All parameters are at their defaults.
    pub fn new() -> Registry
        ensures { result ≡ [] }
    {
        Registry {
            values: ArrayVec::new(),
        }
    }

    /// The values that aren't at their defaults, sorted by host, gate and parameter.
    pub fn values(&self) -> &[RegValue]
        ensures values { result.now ≡ self.now }
        ensures sorted { AreValues self.now }
    {
        self.values.as_slice()
    }

    /// The value of a parameter (ETSI TS 102 622, section 8.2). It asks for a host from 01 to 07 and SESSION_IDENTITY or WHITELIST of gate 00.
    pub fn get(&self, host: u8, gate: u8, param: u8) -> ArrayVec<u8, 20>
        requires { IsTrue (is_kept host gate param) }
        ensures { result.items ≡ value_at self.now host gate param }
    {
        match self.find(place(host, param)) {
            Some(present) => bytes_of(present.value.as_slice()),
            None if param == SESSION_IDENTITY => bytes_of(&[0xFF; 8]),
            None => ArrayVec::new(),
        }
    }

    /// Sets a parameter (ETSI TS 102 622, section 8.2). It asks for a host from 01 to 07, SESSION_IDENTITY or WHITELIST of gate 00, and at most
    /// 20 bytes.
    pub fn set(&mut self, host: u8, gate: u8, param: u8, value: &[u8])
        requires kept { IsTrue (is_kept host gate param) }
        requires sized { length value.now ≤ 20 }
        ensures { self.new ≡ with_value self.old host gate param value.now }
    {
        if is_default(param, value) {
            take_out(&mut self.values, place(host, param));
        } else {
            let value = bytes_of(value);
            self.put(RegValue {
                host,
                gate,
                param,
                value,
            });
        }
    }

    fn find(&self, place: u16) -> Option<&RegValue>
        ensures { option_copied result ≡ row_of place_of_value place self.now }
    {
        self.values.iter().find(|value| value.place() == place)
    }

    fn put(&mut self, value: RegValue)
        requires { IsPresent value }
        ensures { self.new ≡ with_row place_of_value value self.old }
    {
        put_in(&mut self.values, value);
    }

    /// Sets all parameters of a host to their defaults.
    pub fn clear_host(&mut self, host: u8)
        ensures { self.new ≡ values_without_host self.old host }
    {
        self.values.retain(|value| value.host != host);
    }
}

impl Clone for Registry {
    ghost use Rattle.std.specs.Prelude.{◌≡◌};

    ghost is_clone = { λ a b. b ≡ a };

    ghost is_infallible = { λ _. Unit {0} };

    fn clone(&self) -> Result<Self, AllocError> {
        Ok(Registry {
            values: self.values.clone()?,
        })
    }
}

fn bytes_of(value: &[u8]) -> ArrayVec<u8, 20>
    requires { length value.now ≤ 20 }
    ensures { result.items ≡ value.now }
{
    let mut bytes = ArrayVec::new();
    let _ = bytes.try_extend_from_slice(value);
    bytes
}

// Whether these bytes are the default of a parameter.
fn is_default(param: u8, value: &[u8]) -> bool
    ensures { result ≡ is_default param value.now }
{
    if param == SESSION_IDENTITY {
        value.len() == 8 && all_ones(value)
    } else {
        value.is_empty()
    }
}

fn all_ones(value: &[u8]) -> bool
    ensures { result ≡ list_all (λ byte. byte == 255) value.now }
{
    value.iter().all(|byte| *byte == 0xFF)
}

// Where the value of a parameter stands, or where it would be put.
fn place_in(values: &[RegValue], place: u16) -> Result<usize, usize>
    requires { AreRows place_of_value 2 16 values.now }
    ensures { IsPlace place_of_value place values.now result }
{
    values.binary_search_by_key(&place, |value| value.place())
}

fn put_in(values: &mut ArrayVec<RegValue, 14>, value: RegValue)
    requires sorted { AreRows place_of_value 2 16 values.old.items }
    requires present { IsPresent value }
    ensures { values.new.items ≡ with_row place_of_value value values.old.items }
{
    match place_in(values.as_slice(), value.place()) {
        Ok(at) => values.as_mut_slice()[at] = value,
        Err(at) => values.insert(at, value),
    }
}

fn take_out(values: &mut ArrayVec<RegValue, 14>, place: u16)
    requires { AreRows place_of_value 2 16 values.old.items }
    ensures { values.new.items ≡ without_row place_of_value place values.old.items }
{
    match place_in(values.as_slice(), place) {
        Ok(at) => {
            values.remove(at);
        }
        Err(_) => {}
    }
}
