mod carrying;
mod failing;
mod nudging;
