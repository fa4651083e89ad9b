// Cards written and read back, and encoded from.
use anyhow::ensure;
use card::states::FinishedCard;
use card_file::read::read_card;
use card_file::write::write_card;
use code::refusal::Refusal;

// The most bytes of a card file.
pub(crate) const MOST_BYTES: usize = 196;

// The card, written and read into another, is the same.
pub(crate) fn expect_read_back(card: &FinishedCard) -> anyhow::Result<()> {
    let mut out = [0u8; MOST_BYTES];
    let end = write_card(card, &mut out)?;
    ensure!(end <= MOST_BYTES, "a file of {end} bytes");
    let mut back = FinishedCard::new();
    read_card(&out[0..end], &mut back)?;
    ensure!(*card == back, "a card was read back as another");
    Ok(())
}

// The messages of two bits or fewer have words other than 0, and the first number that is no message is refused.
pub(crate) fn expect_encoded_apart(card: &FinishedCard) -> anyhow::Result<()> {
    let k = card.rows().len().min(24);
    for i in 0..k {
        for j in 0..k {
            let message = 1u64 << i | 1u64 << j;
            ensure!(card.encode(message)? != 0, "message {message} has word 0");
        }
    }
    ensure!(
        card.encode(1u64 << k) == Err(Refusal::MessageTooLarge),
        "a message too large was not refused"
    );
    ensure!(card.encode(0)? == 0, "message 0 has a word other than 0");
    Ok(())
}
