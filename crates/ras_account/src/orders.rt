//! The orders that entries give.
ghost use Rattle.std.specs.Prelude.{◌≡◌, ◌+◌, ◌<◌, ◌≤◌, ◌↔◌, ◌++◌, [], ◌∷◌, IsTrue, Some, IfOk, option_to_list, length, slice_get};
ghost use Rattle.ras_account.specs.Steps.Taking.{GivesOrders};

use page_policy::Order;
use ras_base::NoMemory;
use std::alloc::Global;
use std::marker::Model;

/// Orders in the order in which they were given, with memory for more that was allocated
/// beforehand.
///
/// Contracts see the orders, and how many more there is room for.
#[derive(Debug, Drop)]
pub struct Orders {
    places: Vec<Order>,
    given: usize,
}

impl Model for Orders {
    ghost use Rattle.std.specs.Prelude.{◌≤◌, ◌-◌, length, take};
    ghost use Rattle.ras_account.specs.View.{OrderList};

    ghost Value = { OrderList };

    ghost view = { λ o. record { orders = take o.given o.places.items; room = length o.places.items - o.given } };

    ghost invariant = { λ o. o.given ≤ length o.places.items };
}

impl Orders {
    /// Returns an empty list with room for `n` orders.
    pub fn new(alloc: Global, n: usize) -> Result<Orders, NoMemory>
        ensures orders { IfOk result (λ list. list.orders ≡ []) }
        ensures room { IfOk result (λ list. list.room ≡ n) }
    {
        // An element is never read before an order is put there, so its first value doesn't matter.
        Ok(Orders {
            places: vec![in alloc; Order::Soft(0); n]?,
            given: 0,
        })
    }

    /// Returns how many orders were given.
    pub fn len(&self) -> usize
        ensures { result ≡ length self.now.orders }
    {
        self.given
    }

    /// Returns whether no order was given.
    pub fn is_empty(&self) -> bool
        ensures { IsTrue result ↔ (self.now.orders ≡ []) }
    {
        self.given == 0
    }

    /// Returns an order by its index, from 0, which has to be below `len`.
    pub fn get(&self, i: usize) -> Order
        requires { i < length self.now.orders }
        ensures { slice_get self.now.orders i ≡ Some result }
    {
        self.places[i]
    }

    // Appends an order.
    pub(crate) fn push(&mut self, order: Order)
        requires { 0 < self.old.room }
        ensures orders { self.new.orders ≡ self.old.orders ++ order ∷ [] }
        ensures room { self.new.room + 1 ≡ self.old.room }
    {
        self.places[self.given] = order;
        self.given += 1;
    }

    // Appends an order, if there is one.
    pub(crate) fn push_some(&mut self, order: Option<Order>)
        requires { length (option_to_list order) ≤ self.old.room }
        ensures { GivesOrders self.old self.new (option_to_list order) }
    {
        if let Some(order) = order {
            self.push(order);
        }
    }
}
