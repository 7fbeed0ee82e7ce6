mod event_texts;
mod expected;
mod messages;
mod schedules;
mod scripts;
mod tapes;
