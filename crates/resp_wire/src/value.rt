//! Values of the protocol.

ghost use Rattle.std.specs.Prelude.{◌≡◌, map, IfOk};
ghost use Rattle.std.specs.Cmp.{partial_equiv_from_equiv};
ghost use Rattle.resp_wire.specs.Seen.{data_of};
ghost use Rattle.resp_wire.specs.Same.{same_data, same_value, same_list, value_equiv, list_equiv};

use crate::bytes::Bytes;
use crate::fault::NoMemory;
use crate::text::Line;
use std::alloc::Global;
use std::marker::Model;

/// A value of the protocol.
#[cycle(value)]
#[derive(Drop)]
pub enum Value {
    Simple(Line),
    Error(Line),
    Integer(i64),
    Bulk(Bytes),
    NullBulk,
    Array(Values),
    NullArray,
}

/// The items of an array.
#[cycle(value)]
#[derive(Drop)]
pub struct Values {
    items: Vec<Value>,
}

impl Model for Values {
    ghost use Rattle.std.specs.Prelude.{List, map};
    ghost use Rattle.resp_wire.specs.Data.{Data};
    ghost use Rattle.resp_wire.specs.Stored.{coded_items};

    ghost Value = { List Data };

    ghost coded = { coded_items };

    ghost use Rattle.resp_wire.specs.Seen.{data_of, size_of};

    ghost view = { λ a. map data_of a.items.items };

    ghost size = { size_of };

    ghost use Rattle.resp_wire.specs.Smaller.{smaller};
    ghost use Rattle.std.proofs.Common.{arith};

    ghost size_decreases = { λ a h. Prim.omega (arith, smaller a.items.items) };
}

impl Value {
    /// The same value in memory of its own.
    #[cycle(copy)]
    pub fn copy(&self, alloc: Global) -> Result<Value, NoMemory>
        ensures { IfOk result (λ copy. copy ≡ self.now) }
    {
        Ok(match self {
            Value::Simple(line) => Value::Simple(line.copy(alloc)?),
            Value::Error(line) => Value::Error(line.copy(alloc)?),
            Value::Integer(number) => Value::Integer(*number),
            Value::Bulk(bytes) => Value::Bulk(bytes.copy(alloc)?),
            Value::NullBulk => Value::NullBulk,
            Value::Array(items) => Value::Array(items.copy(alloc)?),
            Value::NullArray => Value::NullArray,
        })
    }
}

impl PartialEq for Value {
    ghost eq = { same_value };

    ghost laws = { partial_equiv_from_equiv value_equiv };

    fn eq(&self, other: &Value) -> bool {
        self.is_same(other)
    }
}

impl Eq for Value {
    ghost laws = { value_equiv };
}

impl Value {
    #[cycle(same)]
    fn is_same(&self, other: &Value) -> bool
        ensures { result ≡ same_data (data_of self.now) (data_of other.now) }
    {
        match (self, other) {
            (Value::Simple(text), Value::Simple(other)) => text.bytes() == other.bytes(),
            (Value::Error(text), Value::Error(other)) => text.bytes() == other.bytes(),
            (Value::Integer(number), Value::Integer(other)) => number == other,
            (Value::Bulk(bytes), Value::Bulk(other)) => bytes == other,
            (Value::NullBulk, Value::NullBulk) => true,
            (Value::Array(items), Value::Array(other)) => items.are_same(other),
            (Value::NullArray, Value::NullArray) => true,
            _ => false,
        }
    }
}

impl Values {
    #[cycle(same)]
    fn are_same(&self, other: &Values) -> bool
        ensures { result ≡ same_list self.now other.now }
    {
        if self.as_slice().len() != other.as_slice().len() {
            return false;
        }
        for (item, other) in self.items.iter().zip(&other.items) {
            if !item.is_same(other) {
                return false;
            }
        }
        true
    }

    /// The same items in memory of their own.
    #[cycle(copy)]
    pub fn copy(&self, alloc: Global) -> Result<Values, NoMemory>
        ensures { IfOk result (λ copy. copy ≡ self.now) }
    {
        let mut items = Vec::new(alloc);
        for item in &self.items {
            items.push(item.copy(alloc)?)?;
        }
        Ok(Values { items })
    }

    pub fn new(items: Vec<Value>) -> Values
        ensures { result ≡ map data_of items.items }
    {
        Values { items }
    }

    pub fn as_slice(&self) -> &[Value]
        ensures { map data_of result.now ≡ self.now }
    {
        self.items.as_slice()
    }

    pub fn into_vec(self) -> Vec<Value>
        ensures { map data_of result.items ≡ self }
    {
        self.items
    }
}

impl PartialEq for Values {
    ghost eq = { same_list };

    ghost laws = { partial_equiv_from_equiv list_equiv };

    fn eq(&self, other: &Values) -> bool {
        self.are_same(other)
    }
}

impl Eq for Values {
    ghost laws = { list_equiv };
}
