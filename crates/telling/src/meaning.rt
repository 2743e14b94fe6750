//! What refusals mean, in words.
use checks::fault::CheckFault;
use jobs::fault::ImageFault;
use station::refusal::Refusal;
use tables::fault::FormFault;
use walks::fault::TypingFault;

// Stays: the words of this program alone. The faults' own words, by `Display`, are those of `listing`.
/// What a refusal means.
pub(crate) fn meaning(refusal: Refusal) -> &'static str {
    match refusal {
        Refusal::Block(_) => "the scheme block is not whole, or its kind is none of 0 to 3",
        Refusal::Image(fault) => of_image(fault),
        Refusal::Check(CheckFault::Form(fault)) => of_form(fault),
        Refusal::Check(CheckFault::Typing(fault)) => of_typing(fault),
    }
}

/// Does a refusal mean an entry of the image?
pub(crate) fn is_of_entry(refusal: Refusal) -> bool {
    match refusal {
        Refusal::Image(ImageFault::Form(fault)) => is_of_term_or_type(fault),
        Refusal::Check(CheckFault::Form(fault)) => is_of_term_or_type(fault),
        Refusal::Check(CheckFault::Typing(_)) => true,
        Refusal::Block(_) | Refusal::Image(_) => false,
    }
}

// Is a question of form about one type or term?
fn is_of_term_or_type(fault: FormFault) -> bool {
    !matches!(
        &fault,
        FormFault::Scheme(_) | FormFault::Counts { .. } | FormFault::Room { .. }
    )
}

fn of_image(fault: ImageFault) -> &'static str {
    match fault {
        ImageFault::Form(fault) => of_form(fault),
        ImageFault::Short { .. } => "the image has fewer than 4 bytes",
        ImageFault::Length { .. } => "the image has not the length that its counts ask for",
        ImageFault::Output { .. } => "the tables have no room",
    }
}

fn of_form(fault: FormFault) -> &'static str {
    match fault {
        FormFault::Scheme(_) => "the scheme is not sound",
        FormFault::Counts { .. } => {
            "there are more than 512 types, no terms, or more than 1024 terms"
        }
        FormFault::Room { .. } => "the tables have no room",
        FormFault::Tag { .. } => "the tag is none of its table",
        FormFault::Operands { .. } => "an operand is not as the tag asks",
        FormFault::Role { .. } => "the role code is no role of the scheme",
        FormFault::Size { .. } => "the type, written out, has more than 4096 parts",
        FormFault::Named { .. } => "the term is not named exactly once",
        FormFault::Unbound { .. } => "the variable has no binder",
    }
}

fn of_typing(fault: TypingFault) -> &'static str {
    match fault {
        TypingFault::NoFunction { .. } => "the first operand is no function",
        TypingFault::Argument { .. } => "the argument is not below what the function takes",
        TypingFault::Result { .. } => "the result of the function is not below what it takes",
        TypingFault::NoGuard { .. } => "the operand is not guarded",
        TypingFault::NoComputation { .. } => "an operand is no computation",
        TypingFault::Restriction { .. } => "the restriction does not dominate the role of its body",
    }
}
