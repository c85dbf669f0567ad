// Worked examples: the definitions computed on them by the checker, and the code run on them by tests.
#![tactic(auto)]

ghost use Rattle.worked.specs.Worked.{Worked};

// The definitions give what each example says.
pub fn examples_stand()
    ensures { Worked }
{}

#[cfg(test)]
mod tests {
    use files::key_in;
    use graphs::{
        BASE_NEED, BranchAndBound, Elimination, Graph, Solver, matrix_place, vector_place,
    };
    use prices::{Plain, Price, Ranked};
    use refusals::Told;
    use sheets::Sheet;
    use std::process::Abort;
    use std::test::Fail;

    // What a file's first fault tells: number, place and offset.
    fn refuses(
        rt: &impl Abort,
        file: &[u8],
        number: u8,
        place: u8,
        offset: usize,
    ) -> Result<(), Fail> {
        let mut sheet = Sheet::new();
        let Err(refusal) = key_in(file, &mut sheet) else {
            return Err("accepted".into());
        };
        let told = Told {
            number,
            place,
            depth: 0,
        };
        assert_eq!(rt; refusal.told(), told);
        assert_eq!(rt; refusal.offset(), Some(offset));
        Ok(())
    }

    #[test]
    fn first_faults(rt: HostRuntime) -> Result<(), Fail> {
        refuses(&rt, &[0x0f], 1, 0, 0)?;
        refuses(&rt, &[1, 0, 1, 0x10, 0], 2, 4, 3)?;
        refuses(&rt, &[1, 12, 3], 3, 1, 0)?;
        refuses(&rt, &[1, 0, 1, 1, 0, 2], 4, 1, 3)?;
        refuses(&rt, &[1, 0, 1, 1, 1, 2, 0x12, 1, 0, 1], 5, 2, 6)?;
        refuses(&rt, &[0x18; 65], 6, 64, 64)
    }

    #[test]
    fn the_longest_file(rt: HostRuntime) -> Result<(), Fail> {
        let mut sheet = Sheet::new();
        let Err(refusal) = key_in(&[0; 4097], &mut sheet) else {
            return Err("accepted".into());
        };
        assert_eq!(rt; refusal.told().number, 15);
        assert_eq!(rt; refusal.offset(), None);
        refuses(&rt, &[0; 4096], 1, 0, 0)
    }

    #[test]
    fn withdrawing_and_pricing(rt: HostRuntime) {
        let mut sheet = Sheet::new();
        let file = [
            1, 0, 1, 1, 1, 1, 0x10, 0, 0, 1, 0x10, 1, 0, 1, 0x17, 0, 4, 1, 0x17, 1, 4, 9, 0x18,
        ];
        assert!(rt; key_in(&file, &mut sheet).is_ok());
        let plain: Plain = sheet.price_in_memory();
        assert_eq!(rt; plain.value(), 36);
        assert!(rt; sheet.withdraw().is_ok());
        assert!(rt; sheet.withdraw().is_ok());
        let ranked: Ranked = sheet.price_in_memory();
        assert_eq!(rt; ranked.first(), 3);
        assert_eq!(rt; sheet.lines().len(), 3);
    }

    #[test]
    fn ranked_prices_stop_together(rt: HostRuntime) {
        let low = Ranked::new(65000, 9).add(Ranked::new(1000, 0));
        let high = Ranked::new(65001, 0).add(Ranked::new(1000, 0));
        assert!(rt; low.at_most(high));
        assert_eq!(rt; low.first(), 65535);
        assert_eq!(rt; low.second(), 0);
    }

    // Writes a price where an entry stands.
    fn put(memory: &mut [Plain], place: Option<usize>, value: u32) -> Result<(), Fail> {
        let place = place.ok_or("no such place")?;
        let price = memory.get_mut(place).ok_or("no such place")?;
        *price = Plain::new(value);
        Ok(())
    }

    // v0 costs 0 or 4, v1 costs 1; their matrix has the rows 7 1 and 2 0.
    fn two(memory: &mut [Plain]) -> Result<Graph, Fail> {
        put(memory, vector_place(0, 1), 4)?;
        put(memory, vector_place(1, 0), 1)?;
        put(memory, vector_place(1, 1), 1)?;
        put(memory, matrix_place(0, 1, 0, 0), 7)?;
        put(memory, matrix_place(1, 0, 1, 0), 1)?;
        put(memory, matrix_place(1, 0, 0, 1), 2)?;
        Ok(Graph::new(0b11, [2; 12]))
    }

    #[test]
    fn two_variables_solved(rt: HostRuntime) -> Result<(), Fail> {
        let mut memory = [Plain::new(0); BASE_NEED];
        let graph = two(&mut memory)?;
        let mut picks = [9; 12];
        let Ok(price) = BranchAndBound.solve(&graph, &mut memory, &mut picks) else {
            return Err("refused".into());
        };
        assert_eq!(rt; price.value(), 2);
        assert_eq!(rt; picks[0], 0);
        assert_eq!(rt; picks[1], 1);
        assert_eq!(rt; picks[2], 9);
        Ok(())
    }

    #[test]
    fn memory_one_price_short(rt: HostRuntime) -> Result<(), Fail> {
        let mut memory = [Plain::new(0); BASE_NEED - 1];
        let mut picks = [9; 12];
        let graph = Graph::new(0, [1; 12]);
        let Err(fault) = Elimination.solve(&graph, &mut memory, &mut picks) else {
            return Err("answered".into());
        };
        assert_eq!(rt; fault.told().number, 10);
        Ok(())
    }
}
