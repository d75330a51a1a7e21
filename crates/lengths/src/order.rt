//! The orders of stretch.
ghost use Rattle.std.specs.Prelude.{◌≡◌};
ghost use Rattle.std.specs.Result.{result_ok};
ghost use Rattle.lengths.specs.Orders.{order_number, order_from, OrderOf};

// How strong a stretch is, by its unit: points are the weakest.
#[derive(Clone, Copy, PartialEq, Eq, Debug)]
pub enum Order {
    Points,
    Fil,
    Fill,
    Filll,
}

// A number that no order goes by: one outside 0 to 3.
#[derive(Clone, Copy, PartialEq, Eq, Debug)]
pub struct NoOrder(pub i64);

// The number that an order goes by.
impl From<Order> for i64 {
    ghost from_gives = { λ order number. number ≡ order_number order };

    fn from(order: Order) -> i64 {
        match order {
            Order::Points => 0,
            Order::Fil => 1,
            Order::Fill => 2,
            Order::Filll => 3,
        }
    }
}

// The order that goes by a number.
impl TryFrom<i64> for Order {
    type Error = NoOrder;

    ghost try_from_gives = { λ number r. (result_ok r ≡ order_from number) × OrderOf number (result_ok r) };

    fn try_from(number: i64) -> Result<Order, NoOrder> {
        match number {
            0 => Ok(Order::Points),
            1 => Ok(Order::Fil),
            2 => Ok(Order::Fill),
            3 => Ok(Order::Filll),
            _ => Err(NoOrder(number)),
        }
    }
}
