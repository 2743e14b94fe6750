//! What follows the image: a role, a budget and a number of term places.

/// A role, a budget and a number of term places.
#[derive(Clone, Copy)]
pub(crate) struct Order {
    pub role: u64,
    pub budget: u64,
    pub places: u16,
}

/// The image, and what the 18 bytes after it ask for.
pub(crate) fn split(bytes: &[u8]) -> Option<(&[u8], Order)> {
    let (image, order) = bytes.split_last_chunk::<18>()?;
    let (role, rest) = order.split_first_chunk::<8>()?;
    let (budget, rest) = rest.split_first_chunk::<8>()?;
    let (places, _) = rest.split_first_chunk::<2>()?;
    Some((
        image,
        Order {
            role: u64::from_le_bytes(*role),
            budget: u64::from_le_bytes(*budget),
            places: u16::from_le_bytes(*places),
        },
    ))
}
