//! Tests of what a seed decides, against `examples/order/order.py`.
#![tactic(auto)]

#[cfg(test)]
mod drawn;
