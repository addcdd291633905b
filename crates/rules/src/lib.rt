// The market's rules as definitions, and the values that every layer shares.
#![tactic(auto)]

pub mod charge;
pub mod claim;
pub mod fault;
pub mod laws;
pub mod limit;
pub mod power;
pub mod price;
pub mod rate;
pub mod tariff;
pub mod yields;

#[cfg(test)]
mod tests {
    use crate::fault::{Fault, Layer};
    use std::test::Fail;

    // A closure that may not take every question is called with the fault's own.
    #[test]
    fn a_question_told_by_a_closure(rt: HostRuntime) -> Result<(), Fail> {
        let share = Fault {
            question: 4u32,
            place: 3,
        };
        let told = share.map(|parts| 100 / parts);
        assert_eq!(rt; (told.question, told.place), (25, 3));
        let layer = Fault::from(Layer::Grid);
        assert_eq!(rt; layer.map(Some), Fault::from(Some(Layer::Grid)));
        Ok(())
    }
}
