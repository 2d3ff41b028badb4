//! By what an order is known.
ghost use Rattle.std.specs.Prelude.{◌≡◌};
ghost use Rattle.order_carrier.specs.Key.{form_of, key_of};

use server_core::Order;

/// The forms of orders.
#[derive(Clone, Copy, Debug, PartialEq, Eq, PartialOrd, Ord)]
pub enum Form {
    Open,
    Ask,
    Sleep,
}

impl Form {
    fn of(order: &Order) -> Form
        ensures { result ≡ form_of order.now }
    {
        match order {
            Order::Open { .. } => Form::Open,
            Order::Ask { .. } => Form::Ask,
            Order::Sleep { .. } => Form::Sleep,
        }
    }
}

/// By what an order is known: its number, and its form.
#[derive(Clone, Copy, Debug, PartialEq, Eq, PartialOrd, Ord)]
pub struct OrderKey {
    pub number: u64,
    pub form: Form,
}

impl OrderKey {
    pub fn of(number: u64, order: &Order) -> OrderKey
        ensures { result ≡ key_of number order.now }
    {
        OrderKey {
            number,
            form: Form::of(order),
        }
    }
}
