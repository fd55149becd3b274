//! What a table says under a key, or what holds where the key is left out.
ghost use Rattle.std.specs.Prelude.{◌≡◌, [], unwrap_or, option_map, IfOk};
ghost use Rattle.toml.specs.View.{view, items_view, array_view, table_view};
ghost use Rattle.scenario_form.specs.Forms.{values_in};
ghost use Rattle.scenario_form.specs.Values.{node_of, node_at, nodes_in, time_of, rate_of, natural, number_in, address_in, number_at, number_or, address_at, address_or_zero, text_or, flag_or_false, integer_or, list_at, numbers_in, addresses_in};

use crate::field::address_of;
use crate::table::value_at;
use sim_base::{NodeId, Rate, Time};
use std::alloc::{AllocError, Global};
use toml::value::Array;
use toml::{Table, Value};

/// A number, and 0 for a negative one.
pub fn natural(number: i64) -> u64
    ensures { result ≡ natural number }
{
    if number < 0 { 0 } else { number as u64 }
}

fn number_in(value: &Value) -> Option<u64>
    ensures { result ≡ number_in (view value.now) }
{
    match value.as_integer() {
        Some(number) => Some(natural(number)),
        None => None,
    }
}

fn address_in(value: &Value) -> Option<u32>
    ensures { result ≡ address_in (view value.now) }
{
    match value.as_str() {
        Some(text) => address_of(text),
        None => None,
    }
}

pub fn number_at(table: &Table, key: &str) -> Option<u64>
    ensures { result ≡ number_at key.now (table_view table.now) }
{
    match value_at(table, key) {
        Some(value) => number_in(value),
        None => None,
    }
}

pub fn number_or(table: &Table, key: &str, default: u64) -> u64
    ensures { result ≡ number_or default key.now (table_view table.now) }
{
    match number_at(table, key) {
        Some(number) => number,
        None => default,
    }
}

fn node_of(number: u64) -> NodeId
    ensures { result ≡ node_of number }
{
    NodeId(number.min(4_294_967_295) as u32)
}

pub fn node_at(table: &Table, key: &str) -> NodeId
    ensures { result ≡ node_at key.now (table_view table.now) }
{
    node_of(number_or(table, key, 0))
}

pub fn time_at(table: &Table, key: &str) -> Option<Time>
    ensures { result ≡ option_map time_of (number_at key.now (table_view table.now)) }
{
    match number_at(table, key) {
        Some(number) => Some(Time(number)),
        None => None,
    }
}

pub fn rate_at(table: &Table, key: &str) -> Option<Rate>
    ensures { result ≡ option_map rate_of (number_at key.now (table_view table.now)) }
{
    match number_at(table, key) {
        Some(number) => Some(Rate(number)),
        None => None,
    }
}

pub fn address_at(table: &Table, key: &str) -> Option<u32>
    ensures { result ≡ address_at key.now (table_view table.now) }
{
    match value_at(table, key) {
        Some(value) => address_in(value),
        None => None,
    }
}

pub fn address_or_zero(table: &Table, key: &str) -> u32
    ensures { result ≡ address_or_zero key.now (table_view table.now) }
{
    match address_at(table, key) {
        Some(address) => address,
        None => 0,
    }
}

pub fn text_or<'a>(table: &'a Table, key: &str, default: &'a str) -> &'a str
    ensures { result.now ≡ text_or default.now key.now (table_view table.now) }
{
    match value_at(table, key) {
        Some(value) => match value.as_str() {
            Some(text) => text,
            None => default,
        },
        None => default,
    }
}

pub fn flag_or_false(table: &Table, key: &str) -> bool
    ensures { result ≡ flag_or_false key.now (table_view table.now) }
{
    match value_at(table, key) {
        Some(value) => match value.as_bool() {
            Some(flag) => flag,
            None => false,
        },
        None => false,
    }
}

pub fn integer_or(table: &Table, key: &str, default: i64) -> i64
    ensures { result ≡ integer_or default key.now (table_view table.now) }
{
    match value_at(table, key) {
        Some(value) => match value.as_integer() {
            Some(number) => number,
            None => default,
        },
        None => default,
    }
}

/// The values of the array under a key.
pub fn array_at<'a>(table: &'a Table, key: &str) -> Option<&'a Array>
    ensures { option_map (λ v. values_in (array_view v.now)) result ≡ list_at key.now (table_view table.now) }
{
    match value_at(table, key) {
        Some(value) => value.as_array(),
        None => None,
    }
}

/// The values of the array under a key, and none without an array.
pub fn values_at<'a>(table: &'a Table, key: &str) -> &'a [Value]
    ensures { values_in (items_view result.now) ≡ unwrap_or (list_at key.now (table_view table.now)) [] }
{
    match array_at(table, key) {
        Some(array) => array.as_slice(),
        None => &[],
    }
}

pub fn numbers_in(alloc: Global, values: &[Value]) -> Result<Vec<u64>, AllocError>
    ensures { IfOk result (λ v. v.items ≡ numbers_in (values_in (items_view values.now))) }
{
    let mut numbers = Vec::new(alloc);
    for value in values {
        if let Some(number) = number_in(value) {
            numbers.push(number)?;
        }
    }
    Ok(numbers)
}

pub fn nodes_in(alloc: Global, values: &[Value]) -> Result<Vec<NodeId>, AllocError>
    ensures { IfOk result (λ v. v.items ≡ nodes_in (values_in (items_view values.now))) }
{
    let mut nodes = Vec::new(alloc);
    for value in values {
        if let Some(number) = number_in(value) {
            nodes.push(node_of(number))?;
        }
    }
    Ok(nodes)
}

pub fn addresses_in(alloc: Global, values: &[Value]) -> Result<Vec<u32>, AllocError>
    ensures { IfOk result (λ v. v.items ≡ addresses_in (values_in (items_view values.now))) }
{
    let mut addresses = Vec::new(alloc);
    for value in values {
        if let Some(address) = address_in(value) {
            addresses.push(address)?;
        }
    }
    Ok(addresses)
}
