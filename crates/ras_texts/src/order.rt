//! The lines of orders: to take pages offline, and to replace modules.

ghost use Rattle.std.specs.Prelude.{◌≡◌, ◌++◌, ◌+◌, ◌≤◌, IfOk, OnOk, length, vec_capacity, vec_len};
ghost use Rattle.std.specs.List.{flat_map};
ghost use Rattle.ras_base.specs.Text.{line_with};
ghost use Rattle.ras_texts.specs.OrderRoom.{HasOrderRoom, StaysWithin};
ghost use Rattle.ras_texts.specs.Orders.{module_label, module_line, order_line, order_lines, page_line};
ghost use Rattle.ras_texts.specs.Orders.{replaced_line, standing_lines, state_line};
ghost use Rattle.ras_texts.specs.Text.{address_text, label_text};

use crate::pieces::page_digits;
use dimm_topology::Label;
use page_policy::{Order, PageState};
use ras_account::{Account, Orders};
use ras_base::NoMemory;
use std::alloc::Global;

/// The most bytes of the line of an order: of an order for a module with a label of 32 bytes.
pub const ORDER_LENGTH: usize = 52;

/// Appends the lines of orders, with the labels of an account. Requires a text with room for them.
/// Allocates nothing.
pub fn push_orders(text: &mut Vec<u8>, orders: &Orders, account: &Account)
    requires { HasOrderRoom (length orders.now.orders) text.old }
    ensures { text.new.items
        ≡ text.old.items ++ order_lines account.now.state.modules orders.now.orders }
{
    for i in 0..orders.len() {
        push_order(text, orders.get(i), account);
    }
}

/// Returns the lines of the outstanding orders of an account, for pages and then for modules, each
/// in the order in which they were first seen.
///
/// # Errors
///
/// `NoMemory`: only if memory runs out.
pub fn standing_lines(alloc: Global, account: &Account) -> Result<Vec<u8>, NoMemory>
    ensures { IfOk result (λ text. text.items ≡ standing_lines account.now.state) }
{
    let mut text = Vec::new(alloc);
    push_standing_pages(&mut text, account)?;
    push_standing_modules(&mut text, account)?;
    Ok(text)
}

// Appends the lines of the pages with an outstanding order.
fn push_standing_pages(text: &mut Vec<u8>, account: &Account) -> Result<(), NoMemory>
    ensures { OnOk result (text.new.items
        ≡ text.old.items ++ flat_map page_line account.now.state.pages) }
{
    let pages = account.pages();
    for i in 0..pages.len() {
        let (page, _, state) = pages.row(i);
        text.reserve(ORDER_LENGTH)?;
        push_state(text, page, state);
    }
    Ok(())
}

// Appends the lines of the modules that are to be replaced.
fn push_standing_modules(text: &mut Vec<u8>, account: &Account) -> Result<(), NoMemory>
    ensures { OnOk result (text.new.items
        ≡ text.old.items ++ flat_map replaced_line account.now.state.modules) }
{
    for i in 0..account.modules_len() {
        let row = account.module(i);
        if row.replace {
            text.reserve(ORDER_LENGTH)?;
            push_module(text, &row.label);
        }
    }
    Ok(())
}

// Appends the line of an order to a text that has room for it.
fn push_order(text: &mut Vec<u8>, order: Order, account: &Account)
    requires { HasOrderRoom 1 text.old }
    ensures line { text.new.items ≡ text.old.items ++ order_line account.now.state.modules order }
    ensures room { StaysWithin text.old text.new }
{
    match order {
        Order::Soft(page) => push_state(text, page, PageState::Soft),
        Order::Hard(page) => push_state(text, page, PageState::Hard),
        Order::Module(place) => push_module(text, &module_label(account, place)),
    }
}

// Returns the label of the module at an index.
fn module_label(account: &Account, place: usize) -> Label
    ensures { result ≡ module_label account.now.state.modules place }
{
    if place < account.modules_len() {
        account.module(place).label
    } else {
        Label::none()
    }
}

// Appends the line of a page in a state to a text that has room for it.
fn push_state(text: &mut Vec<u8>, page: u64, state: PageState)
    requires { HasOrderRoom 1 text.old }
    ensures line { text.new.items ≡ text.old.items ++ state_line page state }
    ensures room { StaysWithin text.old text.new }
{
    match state {
        PageState::Kept => {}
        PageState::Soft => push_page_line(text, b"order soft page=", page),
        PageState::Hard => push_page_line(text, b"order hard page=", page),
    }
}

// Appends a line that ends with a page to a text that has room for it.
fn push_page_line(text: &mut Vec<u8>, head: &[u8], page: u64)
    requires head { length head.now ≤ 16 }
    requires room { HasOrderRoom 1 text.old }
    ensures line { text.new.items ≡ text.old.items ++ line_with (head.now ++ address_text page) }
    ensures room { StaysWithin text.old text.new }
{
    push_within(text, head);
    push_within(text, &page_digits(page));
    push_within(text, b"000");
    push_within(text, b"\n");
}

// Appends the line of a module that is to be replaced to a text that has room for it.
fn push_module(text: &mut Vec<u8>, label: &Label)
    requires { HasOrderRoom 1 text.old }
    ensures line { text.new.items ≡ text.old.items ++ module_line label.now }
    ensures room { StaysWithin text.old text.new }
{
    push_within(text, b"order module label=");
    push_label_within(text, label);
    push_within(text, b"\n");
}

// Appends a label, or `-` if it is empty, to a text that has room for it.
#[tactic(auto, using(crate::proofs::LabelLemmas::label_short))]
fn push_label_within(text: &mut Vec<u8>, label: &Label)
    requires { vec_len text.old + 32 ≤ vec_capacity text.old }
    ensures label { text.new.items ≡ text.old.items ++ label_text label.now }
    ensures length { vec_len text.new ≤ vec_len text.old + 32 }
    ensures room { vec_capacity text.old ≤ vec_capacity text.new }
{
    let bytes = label.bytes();
    if bytes.is_empty() {
        push_within(text, b"-");
    } else {
        push_within(text, bytes);
    }
}

// Appends a piece to a text that has room for it.
fn push_within(text: &mut Vec<u8>, piece: &[u8])
    requires { vec_len text.old + length piece.now ≤ vec_capacity text.old }
    ensures piece { text.new.items ≡ text.old.items ++ piece.now }
    ensures length { vec_len text.new ≡ vec_len text.old + length piece.now }
    ensures room { vec_capacity text.old ≤ vec_capacity text.new }
{
    match text.extend_from_slice(piece) {
        Ok(()) => {}
        Err(_) => unreachable!(),
    }
}
