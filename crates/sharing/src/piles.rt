// Piles of layers over the stores, and the stores and layers at their limits.
ghost use Rattle.sharing.specs.Piles.{Piled};

use store::BlockStore;

/// Layers to any depth over any store: the pile's list is the store's, and its area too; a row is refused exactly where no layer remembers it and the store
/// refuses it; and a put puts into the store once, or, where a layer remembers the row, not at all. What the store keeps stands apart, member by member, as
/// each layer takes it.
pub fn pile_meaning<S: BlockStore>()
    ensures { Piled S.BlockStore.rows S.BlockStore.refuses S.BlockStore.puts S.BlockStore.area_long }
{}

#[cfg(test)]
mod tests {
    use crate::Sharing;
    use reading::{Count, Single};
    use std::process::Abort;
    use store::{BlockStore, Cause, FlashStore, RowStore};

    fn count(value: i16) -> Count {
        Count { value }
    }

    // The lengths at the limits, and an area of 1,030 readings to its last reading.
    fn lengths<S: BlockStore<Reading = Count> + Drop>(rt: &impl Abort, mut store: S) {
        let row = [count(7); 1025];
        assert_eq!(rt; store.put(&row[0..0]), Err(Cause::RowLength));
        assert_eq!(rt; store.put(&row), Err(Cause::RowLength));
        assert_eq!(rt; store.put(&row[0..1024]), Ok(0));
        assert_eq!(rt; store.put(&row[0..7]), Err(Cause::AreaFull));
        assert_eq!(rt; store.put(&row[0..6]), Ok(1));
        assert_eq!(rt; store.put(&row[0..1]), Err(Cause::AreaFull));
        assert_eq!(rt; store.put(&row[0..0]), Err(Cause::RowLength));
        assert_eq!(rt; store.count(), 2);
        assert_eq!(rt; store.block_len(0), Some(1024));
        assert_eq!(rt; store.block_len(1), Some(6));
        assert_eq!(rt; store.block_len(2), None);
        assert_eq!(rt; store.reading(1, 6), None);
        assert_eq!(rt; store.reading(2, 0), None);
    }

    // A thousand blocks in an area with room for one more reading.
    fn thousand<S: BlockStore<Reading = Count> + Drop>(rt: &impl Abort, mut store: S) {
        for k in 0..1000u32 {
            assert_eq!(rt; store.put(&[count((k % 999) as i16)]), Ok(k));
        }
        assert_eq!(rt; store.put(&[count(1)]), Err(Cause::BlocksFull));
        assert_eq!(rt; store.put(&[]), Err(Cause::RowLength));
        assert_eq!(rt; store.count(), 1000);
        assert_eq!(rt; store.reading(998, 0), Some(count(998)));
    }

    #[test]
    fn row_store_limits(rt: HostRuntime) {
        let mut area = [count(0); 1030];
        lengths(&rt, RowStore::new(&mut area));
        let mut area = [count(0); 1001];
        thousand(&rt, RowStore::new(&mut area));
    }

    // Two bytes a reading; the odd byte at the end is of no use.
    #[test]
    fn flash_store_limits(rt: HostRuntime) {
        let mut area = [0u8; 2061];
        lengths(&rt, FlashStore::new(&mut area));
        let mut area = [0u8; 2003];
        thousand(&rt, FlashStore::new(&mut area));
    }

    // A layer over a layer: the upper one remembers row 0, which the lower one has forgotten after 32 others.
    fn upper_remembers<S: BlockStore<Reading = Count> + Drop>(rt: &impl Abort, store: S) {
        let mut lower = Sharing::new(store);
        for k in 0..32u32 {
            assert_eq!(rt; lower.put(&[count(k as i16)]), Ok(k));
        }
        let mut pile = Sharing::new(lower);
        assert_eq!(rt; pile.put(&[count(0)]), Ok(0));
        assert_eq!(rt; pile.put(&[count(32)]), Ok(32));
        assert_eq!(rt; pile.put(&[count(0)]), Ok(0));
        assert_eq!(rt; pile.put(&[]), Err(Cause::RowLength));
        assert_eq!(rt; pile.count(), 33);
    }

    // The same rows with no upper layer: row 0 is a block again.
    fn lower_forgets<S: BlockStore<Reading = Count> + Drop>(rt: &impl Abort, store: S) {
        let mut lower = Sharing::new(store);
        for k in 0..33u32 {
            assert_eq!(rt; lower.put(&[count(k as i16)]), Ok(k));
        }
        assert_eq!(rt; lower.put(&[count(1)]), Ok(1));
        assert_eq!(rt; lower.put(&[count(0)]), Ok(33));
    }

    #[test]
    fn layers_over_the_row_store(rt: HostRuntime) {
        let mut area = [count(9); 34];
        upper_remembers(&rt, RowStore::new(&mut area));
        lower_forgets(&rt, RowStore::new(&mut area));
    }

    #[test]
    fn layers_over_the_flash_store(rt: HostRuntime) {
        let mut area = [0u8; 68];
        upper_remembers(&rt, FlashStore::new(&mut area));
        lower_forgets(&rt, FlashStore::new(&mut area));
    }

    // +0 and −0 are two rows, though they rank alike; all patterns that are not a number are one.
    fn zeros<S: BlockStore<Reading = Single> + Drop>(rt: &impl Abort, store: S) {
        let mut pile = Sharing::new(Sharing::new(store));
        assert_eq!(rt; pile.put(&[Single::from_bits(0)]), Ok(0));
        assert_eq!(rt; pile.put(&[Single::from_bits(0x8000_0000)]), Ok(1));
        assert_eq!(rt; pile.put(&[Single::from_bits(0x7F80_0001)]), Ok(2));
        assert_eq!(rt; pile.put(&[Single::from_bits(0xFFFF_FFFF)]), Ok(2));
        assert_eq!(rt; pile.put(&[Single::from_bits(0)]), Ok(0));
        assert_eq!(rt;
            pile.reading(1, 0).map(|minus| minus.to_bits()),
            Some(0x8000_0000)
        );
    }

    #[test]
    fn zeros_are_not_shared(rt: HostRuntime) {
        let mut readings = [Single::from_bits(1); 3];
        zeros(&rt, RowStore::new(&mut readings));
        let mut bytes = [0u8; 12];
        zeros(&rt, FlashStore::new(&mut bytes));
    }
}
