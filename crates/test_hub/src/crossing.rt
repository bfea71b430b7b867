//! What may cross threads. The check finds it, at the call.

pub(crate) fn is_shared<T: Send + Sync>(value: &T) {
    let _value = value;
}

pub(crate) fn is_sent<T: Send>(value: &T) {
    let _value = value;
}
