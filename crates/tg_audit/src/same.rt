//! Equality of ops and of answers.

ghost use Rattle.std.specs.Prelude.{◌≡◌, nat_eq};
ghost use Rattle.std.specs.Cmp.Lexicographic.{pointwise};
ghost use Rattle.std.specs.Str.{bytes_eq};
ghost use Rattle.tg_base.specs.Orders.{oid_eq};
ghost use Rattle.tg_audit.specs.Same as same;

use tg_any::{AnyAns, AnyOp};
use tg_base::{Oid, Pos};
use tg_cell::{CounterAns, CounterOp, RegisterAns, RegisterOp};
use tg_dir::{DirectoryAns, DirectoryOp, Object};
use tg_kind::Text;
use tg_list::{TextListAns, TextListOp};
use tg_map::{MapAns, MapOp};
use tg_set::{SetAns, SetOp};
use tg_tree::{Path, TreeAns, TreeOp};

fn same_text(one: &Text, other: &Text) -> bool
    ensures { result ≡ bytes_eq one.now other.now }
{
    one.as_str() == other.as_str()
}

fn same_path(one: &Path, other: &Path) -> bool
    ensures { result ≡ bytes_eq one.now other.now }
{
    one.as_str() == other.as_str()
}

fn same_object(one: &Object, other: &Object) -> bool
    ensures { result ≡ oid_eq one.now other.now }
{
    one.oid().0 == other.oid().0
}

fn same_found(one: &Option<Oid>, other: &Option<Oid>) -> bool
    ensures { result ≡ same.same_option oid_eq one.now other.now }
{
    match (one, other) {
        (None, None) => true,
        (Some(a), Some(b)) => a.0 == b.0,
        _ => false,
    }
}

fn same_held(one: &Option<Text>, other: &Option<Text>) -> bool
    ensures { result ≡ same.same_option bytes_eq one.now other.now }
{
    match (one, other) {
        (None, None) => true,
        (Some(a), Some(b)) => same_text(a, b),
        _ => false,
    }
}

fn same_texts(one: &[Text], other: &[Text]) -> bool
    ensures { result ≡ pointwise bytes_eq one.now other.now }
{
    if one.len() != other.len() {
        return false;
    }
    for place in 0..one.len() {
        if !same_text(&one[place], &other[place]) {
            return false;
        }
    }
    true
}

fn same_numbers(one: &[u64], other: &[u64]) -> bool
    ensures { result ≡ pointwise nat_eq one.now other.now }
{
    one == other
}

fn same_mark(one: &(Oid, Pos), other: &(Oid, Pos)) -> bool
    ensures { result ≡ same.same_mark one.now other.now }
{
    one.0.0 == other.0.0 && one.1 == other.1
}

fn same_marks(one: &[(Oid, Pos)], other: &[(Oid, Pos)]) -> bool
    ensures { result ≡ pointwise same.same_mark one.now other.now }
{
    if one.len() != other.len() {
        return false;
    }
    for place in 0..one.len() {
        if !same_mark(&one[place], &other[place]) {
            return false;
        }
    }
    true
}

fn same_directory_op(one: &DirectoryOp, other: &DirectoryOp) -> bool
    ensures { result ≡ same.same_directory_op one.now other.now }
{
    match (one, other) {
        (DirectoryOp::Name { name, oid }, DirectoryOp::Name { name: n, oid: o }) => same_text(
            name, n,
        ) && same_object(oid, o),
        (DirectoryOp::Mark { oid, mark }, DirectoryOp::Mark { oid: o, mark: m }) => same_object(
            oid, o,
        ) && mark == m,
        _ => false,
    }
}

fn same_counter_op(one: &CounterOp, other: &CounterOp) -> bool
    ensures { result ≡ same.same_counter_op one.now other.now }
{
    match (one, other) {
        (CounterOp::Add { by }, CounterOp::Add { by: b }) => by == b,
    }
}

fn same_register_op(one: &RegisterOp, other: &RegisterOp) -> bool
    ensures { result ≡ same.same_register_op one.now other.now }
{
    match (one, other) {
        (RegisterOp::Write { text }, RegisterOp::Write { text: t }) => same_text(text, t),
    }
}

fn same_map_op(one: &MapOp, other: &MapOp) -> bool
    ensures { result ≡ same.same_map_op one.now other.now }
{
    match (one, other) {
        (MapOp::Set { key, value }, MapOp::Set { key: k, value: v }) => same_text(key, k)
            && same_text(value, v),
        (MapOp::Unset { key }, MapOp::Unset { key: k }) => same_text(key, k),
        _ => false,
    }
}

fn same_list_op(one: &TextListOp, other: &TextListOp) -> bool
    ensures { result ≡ same.same_list_op one.now other.now }
{
    match (one, other) {
        (TextListOp::PushFront { text }, TextListOp::PushFront { text: t }) => same_text(text, t),
        (TextListOp::PushBack { text }, TextListOp::PushBack { text: t }) => same_text(text, t),
        (TextListOp::Insert { at, text }, TextListOp::Insert { at: i, text: t }) => at == i
            && same_text(text, t),
        (TextListOp::Remove { at }, TextListOp::Remove { at: i }) => at == i,
        (TextListOp::PopFront, TextListOp::PopFront) => true,
        (TextListOp::PopBack, TextListOp::PopBack) => true,
        _ => false,
    }
}

fn same_tree_op(one: &TreeOp, other: &TreeOp) -> bool
    ensures { result ≡ same.same_tree_op one.now other.now }
{
    match (one, other) {
        (TreeOp::Create { path, text }, TreeOp::Create { path: p, text: t }) => same_path(path, p)
            && same_text(text, t),
        (TreeOp::Store { path, text }, TreeOp::Store { path: p, text: t }) => same_path(path, p)
            && same_text(text, t),
        (TreeOp::Delete { path }, TreeOp::Delete { path: p }) => same_path(path, p),
        _ => false,
    }
}

fn same_set_op(one: &SetOp, other: &SetOp) -> bool
    ensures { result ≡ same.same_set_op one.now other.now }
{
    match (one, other) {
        (SetOp::Include { number }, SetOp::Include { number: n }) => number == n,
        (SetOp::Exclude { number }, SetOp::Exclude { number: n }) => number == n,
        _ => false,
    }
}

/// Whether both are equal.
pub fn same_op(one: &AnyOp, other: &AnyOp) -> bool
    ensures { result ≡ same.same_op one.now other.now }
{
    match (one, other) {
        (AnyOp::Directory(a), AnyOp::Directory(b)) => same_directory_op(a, b),
        (AnyOp::Counter(a), AnyOp::Counter(b)) => same_counter_op(a, b),
        (AnyOp::Register(a), AnyOp::Register(b)) => same_register_op(a, b),
        (AnyOp::Map(a), AnyOp::Map(b)) => same_map_op(a, b),
        (AnyOp::List(a), AnyOp::List(b)) => same_list_op(a, b),
        (AnyOp::Tree(a), AnyOp::Tree(b)) => same_tree_op(a, b),
        (AnyOp::Set(a), AnyOp::Set(b)) => same_set_op(a, b),
        _ => false,
    }
}

fn same_directory_ans(one: &DirectoryAns, other: &DirectoryAns) -> bool
    ensures { result ≡ same.same_directory_ans one.now other.now }
{
    match (one, other) {
        (DirectoryAns::Found(a), DirectoryAns::Found(b)) => same_found(a, b),
        (DirectoryAns::Marks(a), DirectoryAns::Marks(b)) => same_marks(a.as_slice(), b.as_slice()),
        (DirectoryAns::Floor(a), DirectoryAns::Floor(b)) => a == b,
        _ => false,
    }
}

fn same_counter_ans(one: &CounterAns, other: &CounterAns) -> bool
    ensures { result ≡ same.same_counter_ans one.now other.now }
{
    match (one, other) {
        (CounterAns::Number(a), CounterAns::Number(b)) => a == b,
    }
}

fn same_register_ans(one: &RegisterAns, other: &RegisterAns) -> bool
    ensures { result ≡ same.same_register_ans one.now other.now }
{
    match (one, other) {
        (RegisterAns::Held(a), RegisterAns::Held(b)) => same_held(a, b),
    }
}

fn same_map_ans(one: &MapAns, other: &MapAns) -> bool
    ensures { result ≡ same.same_map_ans one.now other.now }
{
    match (one, other) {
        (MapAns::Value(a), MapAns::Value(b)) => same_held(a, b),
        (MapAns::Number(a), MapAns::Number(b)) => a == b,
        (MapAns::Keys(a), MapAns::Keys(b)) => same_texts(a.as_slice(), b.as_slice()),
        _ => false,
    }
}

fn same_list_ans(one: &TextListAns, other: &TextListAns) -> bool
    ensures { result ≡ same.same_list_ans one.now other.now }
{
    match (one, other) {
        (TextListAns::Item(a), TextListAns::Item(b)) => same_held(a, b),
        (TextListAns::Number(a), TextListAns::Number(b)) => a == b,
        (TextListAns::Items(a), TextListAns::Items(b)) => same_texts(a.as_slice(), b.as_slice()),
        _ => false,
    }
}

fn same_tree_ans(one: &TreeAns, other: &TreeAns) -> bool
    ensures { result ≡ same.same_tree_ans one.now other.now }
{
    match (one, other) {
        (TreeAns::Data(a), TreeAns::Data(b)) => same_held(a, b),
        (TreeAns::Has(a), TreeAns::Has(b)) => a == b,
        (TreeAns::Children(a), TreeAns::Children(b)) => same_texts(a.as_slice(), b.as_slice()),
        _ => false,
    }
}

fn same_set_ans(one: &SetAns, other: &SetAns) -> bool
    ensures { result ≡ same.same_set_ans one.now other.now }
{
    match (one, other) {
        (SetAns::Member(a), SetAns::Member(b)) => a == b,
        (SetAns::Count(a), SetAns::Count(b)) => a == b,
        (SetAns::Numbers(a), SetAns::Numbers(b)) => same_numbers(a.as_slice(), b.as_slice()),
        _ => false,
    }
}

/// Whether both are equal.
pub fn same_answer(one: &AnyAns, other: &AnyAns) -> bool
    ensures { result ≡ same.same_answer one.now other.now }
{
    match (one, other) {
        (AnyAns::Directory(a), AnyAns::Directory(b)) => same_directory_ans(a, b),
        (AnyAns::Counter(a), AnyAns::Counter(b)) => same_counter_ans(a, b),
        (AnyAns::Register(a), AnyAns::Register(b)) => same_register_ans(a, b),
        (AnyAns::Map(a), AnyAns::Map(b)) => same_map_ans(a, b),
        (AnyAns::List(a), AnyAns::List(b)) => same_list_ans(a, b),
        (AnyAns::Tree(a), AnyAns::Tree(b)) => same_tree_ans(a, b),
        (AnyAns::Set(a), AnyAns::Set(b)) => same_set_ans(a, b),
        (AnyAns::None, AnyAns::None) => true,
        _ => false,
    }
}
